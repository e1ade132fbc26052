// Written by tests/messages --write from docs/MESSAGES.md: change the entries there, not here.

pub const E1_TITLE: &str = "what is to be added is there";

pub const E1_TEXT: &str =
    "Explanation. An ADD at the node that is named brings a record whose key is there already. The
deck has it, or an earlier part of the change added it.

System action. The whole change is taken back.

Response. Look for the key in the deck and above the node in the change deck. To replace the
record, write MODIFY, with all operands of the new record. To have both, give the new one another
number. If nothing is to change, delete the ADD. In the example device 1000 is one of
ADDRESS=(1000,4) in the deck.

    ADD      IODEVICE ADDRESS=1000,CUNUMBR=1000
refused E1 node 0 device 0.1000";

pub const E2_TITLE: &str = "what is to be deleted or modified isn't there";

pub const E2_TEXT: &str =
    "Explanation. A DELETE or MODIFY at the node that is named is for a record that isn't there. It
was never there, or an earlier part of the change deleted it.

System action. The whole change is taken back.

Response. Compare the key with the deck, and with the part of the change deck above the node.
Correct the number, the channel subsystem or the set: without SCHSET a device is one of set 0. For
online 0.51.LPB the image is offline at that path already. If the record is a new one, write ADD
for MODIFY. If it is gone already, delete the statement. In a range, ADDRESS=(1000,4), each device
must be there.

    DELETE   IODEVICE ADDRESS=1003
    DELETE   IODEVICE ADDRESS=2000
refused E2 node 2 device 0.2000";

pub const E3_TITLE: &str = "a CHOOSE has no parts";

pub const E3_TEXT: &str =
    "Explanation. A CHOOSE performs the first of its parts that is accepted. The one at this node has
no part.

System action. The whole change is taken back.

Response. Write the parts between CHOOSE and its END. If it may do nothing, make an empty ROW
its last part: a ROW and its END. If it isn't needed, delete CHOOSE and END.

             CHOOSE
             END
refused E3 node 0";

pub const E4_TITLE: &str = "a subchannel number is taken";

pub const E4_TEXT: &str =
    "Explanation. A change brings a device back with the subchannel number that it had, and another
device has that number. Or it brings one number for two devices. No command prints this. A change
deck has no numbers, and an undo that would meet it is refused with J2.

System action. The whole change is taken back.

Response. Undo the change that gave the number to another device first.";

pub const B1_TITLE: &str = "a subchannel is busy or has status pending";

pub const B1_TEXT: &str =
    "Explanation. The change, the undo or the redo alters the subchannel that is named. There a
start, halt or clear is in progress, or its status hasn't been taken by TEST SUBCHANNEL. A pending
start counts too. If there are several such subchannels, the least is named. An undo or a redo looks
at all subchannels that its change altered, and names no node. Only scripts cause this, since
iocm apply opens a machine on which nothing is in progress.

System action. Nothing was changed. The I/O goes on.

Response. In the lines below S is the subchannel, as 0.1.0.0003: channel subsystem 0, image 1,
set 0, number 0003. Before the line that was refused add a round for it, with a line sync after
it:

- a function in progress: A end S, then A test S;
- status pending: A test S;
- a pending start: these two, or A cancel S.

A store S shows which it is: scsw is 1 for a start, 2 for a halt, 4 for a clear, and 8 more with
status pending. Then try again: the next B1 may name another subchannel, also one of another image.

    A modify 0.1.0.0003 1 80 00000000
    A start 0.1.0.0003
    sync
    P activate 1
4 refused B1 node 0 subchannel 0.1.0.0003

    P activate 1
    sync
    A modify 0.2.0.0000 1 40 00000000
    A start 0.2.0.0000
    sync
    P undo 1
6 refused B1 subchannel 0.2.0.0000";

pub const C1_TITLE: &str = "the change is nested too deep";

pub const C1_TEXT: &str =
    "Explanation. The change deck is more than 32 levels deep. An edit is one level, and each ROW,
GROUP or CHOOSE round it is one more. A statement with several records is a ROW of its own. Several
statements at the top have a ROW round them. The line is that of the statement with which the depth
was passed.

System action. The change deck was read up to there, and nothing was changed.

Response. Take out levels above that line. Leave out a ROW that is directly in a ROW, or one
that has one part, with its END. A GROUP can go in the same way if the rules may wait for the end of
the change.

             GROUP
             GROUP
             GROUP
             GROUP
             GROUP
             GROUP
             GROUP
             GROUP
             GROUP
             GROUP
             GROUP
             GROUP
             GROUP
             GROUP
             GROUP
             GROUP
             GROUP
             GROUP
             GROUP
             GROUP
             GROUP
             GROUP
             GROUP
             GROUP
             GROUP
             GROUP
             GROUP
             GROUP
             GROUP
             GROUP
             GROUP
             GROUP
    DELETE   IODEVICE ADDRESS=1003
             END
             END
             END
             END
             END
             END
             END
             END
             END
             END
             END
             END
             END
             END
             END
             END
             END
             END
             END
             END
             END
             END
             END
             END
             END
             END
             END
             END
             END
             END
             END
             END
refused C1 line 33";

pub const C2_TITLE: &str = "the change has too many edits";

pub const C2_TEXT: &str =
    "Explanation. The change has more than 4,096 edits. A statement with several devices has one edit
for each, and a ROW, GROUP or CHOOSE without parts counts as one.

System action. The change deck was read up to that line, and nothing was changed.

Response. Divide the change deck into several, each with at most 4,096 records. Activate them
one after the other. What must be done as one change can't have more.

    DELETE   IODEVICE ADDRESS=(1000,4096)
    DELETE   IODEVICE ADDRESS=2000
refused C2 line 2";

pub const J1_TITLE: &str = "there is no such change";

pub const J1_TEXT: &str =
    "Explanation. For an undo: no change with this number is in effect. It was never made, or is
undone. For a redo: no change with this number is undone. It was never made, or is in effect.

System action. Nothing was changed.

Response. Look up the number in the answer to activate or commit, which is change N, and
correct it. It isn't the place of the change deck on the command line. A change deck that was
activated twice has two numbers. If the change is undone already, delete the line.

    P undo 1
1 refused J1

    P activate 1
    P redo 1
2 refused J1";

pub const J2_TITLE: &str = "another change depends on it";

pub const J2_TEXT: &str =
    "Explanation. Another change depends on the one to be undone. Often it came later and wrote the
same record, the same subchannel number or the same subchannel. Or the change to be undone doesn't
fit the machine any more. Then each later change in effect blocks it. So does each earlier change
that was undone since. The blocking change with the highest number is named.
docs/UNDO.md has examples.

System action. Nothing was changed.

Response. Look up the last answer with the number that is named. After change N or redone N
that change is in effect, and after undone N it is undone.

- It is in effect: undo it first, by undo N.
- It is undone: redo it first, by redo N.
- It is undone and its redo is refused with J3, as a new change was accepted since: activate its
  change deck again.

Then try again. The next J2 may name another change.

Device 1003 gives up the subchannel number 0003, and the next device takes it. P undo 2 before
line 3 mends the example:

    P activate 1
    P activate 2
    P undo 1
3 refused J2 change 2";

pub const J3_TITLE: &str = "the redo comes too late, or too early";

pub const J3_TEXT: &str =
    "Explanation. The change is undone, but it isn't the one that was undone last. Or a new change
was accepted since: then it can't be redone any more.

System action. Nothing was changed.

Response. If another change was undone later, redo that one first. If a new change was accepted
since the undo, activate the change deck again: it gets a new number.

    P activate 1
    P undo 1
    P activate 2
    P redo 1
4 refused J3

    P activate 1
    P activate 2
    P undo 2
    P undo 1
    P redo 2
5 refused J3";
