// Written by tests/messages --write from docs/MESSAGES.md: change the entries there, not here.

pub const O1_TITLE: &str = "a change is being staged";

pub const O1_TEXT: &str =
    "Explanation. A begin was accepted, and neither commit nor abort followed yet. Until then
no other change is begun, activated, undone or redone, and show is refused too. It may be the
other operator's begin.

System action. Nothing was changed. The change that was begun goes on.

Response. Put commit or abort before the line that was refused, and a sync between them if
the other operator has one of the two.

    P begin 1
    P show
2 refused O1";

pub const O2_TITLE: &str = "no change is being staged";

pub const O2_TEXT: &str =
    "Explanation. An advance, commit or abort needs a change that was begun, and there is none.
It was ended before, or its begin was refused.

System action. Nothing was changed.

Response. Look at the answer to the last begin before this line. If it was refused, mend that
first. If the change was ended already, delete this line. If there is no begin, add one.

    P begin 1
    P abort
    P commit
3 refused O2";

pub const O3_TITLE: &str = "the trace is full";

pub const O3_TEXT: &str =
    "Explanation. The machine records each call, and was opened with room for a number of them. That
many were made. No run of the program prints this, since iocm run opens the machine with room for
all calls of the script.

System action. The call was handed back, isn't recorded, and changed nothing.

Response. Close the machine, and open it with more room.";

pub const K1_TITLE: &str = "the line is no command";

pub const K1_TEXT: &str = "Explanation. The line isn't in one of these forms:

Actor  Commands
A, B   start S, halt S, clear S, cancel S, test S, store S
       active S, end S, modify S E LL PPPPPPPP
P, Q   activate k, begin k, advance, commit, abort
       undo n, redo n, show
none   sync, alone on its line

S is a subchannel, as 0.1.0.0001: channel subsystem 0 to 5, image 1 to F, set 0 to 3, number in
four digits. E is 0 or 1, LL two digits, and PPPPPPPP eight. Hexadecimal digits are in upper case. k
and n are decimal, 1 to 4294967295, without a sign.

System action. Nothing of the script was run.

Response. Compare the line with its form, word by word. Look for a command of the other actors,
a word or a digit too many or too few, and lower case. A * is a comment only in column 1.
docs/SCRIPTS.md says what each command does.

    A start 0.1.0.0001 x
refused K1 line 1

    * the image is 1 to F, and the channel subsystem 0 to 5
    A start 0.1.0.0001
    A start 6.1.0.0001
refused K1 line 3

    P start 0.1.0.0001
refused K1 line 1";

pub const K2_TITLE: &str = "the change deck isn't there";

pub const K2_TEXT: &str =
    "Explanation. A line activate k or begin k is for the k-th change deck of the command line,
and there are fewer. The first change deck is 1, and is the file after the script.

System action. Nothing of the script was run.

Response. Add the file of the change deck to the command line, or correct k. k isn't the number
of a change: it doesn't count how often something was activated.

    P activate 1
    P activate 2
refused K2 line 2";

pub const K3_TITLE: &str = "a round has too many operator lines";

pub const K3_TEXT: &str =
    "Explanation. A round goes from one sync to the next. In this one P and Q together have more
than 14 lines. The line that is named is the fifteenth.

System action. Nothing of the script was run.

Response. Put a line sync before the line that is named, or earlier in the round. The lines of
P, and those of Q, are still done in their order.

    P show
    P show
    P show
    P show
    P show
    P show
    P show
    Q show
    Q show
    Q show
    Q show
    Q show
    Q show
    Q show
    Q show
refused K3 line 15";

pub const M1_TITLE: &str = "not enough storage";

pub const M1_TEXT: &str =
    "Explanation. There was not enough storage: the process met a limit of its own, or of the system.
Or a change deck is read in a heap of the size that --heap says, and that is too small. Without
--heap the heap has 262,144 bytes. If they aren't enough, the change deck is read anew in one of
twice the size, up to 16,777,216. M1 has no line and no node. In a script activate, begin,
undo and redo may be answered so, after the number of their line. It never comes in place of O1,
C1, C2 or J1, nor if a redo is refused.

System action. What the call had begun was taken back, and it changed nothing. A script goes on
after an answer M1. If iocm run prints refused M1 and nothing else, the script wasn't run to its
end. Nothing of a table is printed.

Response. If you gave --heap, leave it out: then 4,096 edits have room. Or give a larger one,
as --heap 8388608, which is enough for them. Else give the process more storage: look at
ulimit -v, and at the limit of its container or job. Or divide the change deck into several.

In a heap of sixteen bytes:

    DELETE   IODEVICE ADDRESS=1003
refused M1";

pub const Q1_TITLE: &str = "the operators' queue is full";

pub const Q1_TEXT: &str =
    "Explanation. The queue between operators and worker has 16 places, and all of them are taken. No
run of the program prints this: a round of a script has at most 14 lines of operators, and two end
marks.

System action. The call was handed back, and changed nothing.

Response. Submit the call again after the worker has taken one.";

pub const X1_TITLE: &str = "a seat is of another board";

pub const X1_TEXT: &str =
    "Explanation. A call was made with a seat that isn't of this system's board. No run of the
program meets this, so none prints it.

System action. The call was handed back, and changed nothing.

Response. Report it as an error of the program.";

pub const G1_TITLE: &str = "a gate gave up";

pub const G1_TEXT: &str =
    "Explanation. A gate that holds an actor back answered that it waits no longer. The gate of
iocm run holds nobody back, so no run of the program prints this.

System action. The calls that were made stay made. The actor makes no further call in that
round.

Response. Look at the gate that was given: it answered false before a call.";
