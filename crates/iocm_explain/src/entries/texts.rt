// Written by tests/messages --write from docs/MESSAGES.md: change the entries there, not here.

pub const L1_TITLE: &str = "a byte isn't a printable character";

pub const L1_TEXT: &str =
    "Explanation. The line has a byte that isn't a printable ASCII character or a blank. Often it is
a tab, an accented letter, a byte of EBCDIC, or a carriage return that isn't directly before the
line's end. Comments, blank lines and columns 73 to 80 count too. Scripts are checked in the same
way.

System action. The file was read to its end, and nothing was made of it.

Response. Replace the byte by a blank, or delete it. This lists all such lines, but for a
carriage return at the very end of the file:

    LC_ALL=C grep -anP '[^ -~\\r]|\\r(?!$)' FILE

If it lists every line, the file isn't ASCII text: convert it first.

             RESOURCE PARTITION=((LPA,1))
    \tCHPID PATH=50,SHARED
refused L1 line 2

    A\tstart 0.1.0.0001
refused L1 line 1";

pub const L2_TITLE: &str = "a line has more than 80 bytes";

pub const L2_TEXT: &str =
    "Explanation. The line is longer than a card, which has 80 columns. A carriage return before the
line's end doesn't count. Comments and lines of scripts have the same limit.

System action. The file was read to its end, and nothing was made of it.

Response. Continue the statement on a second line:

1. End its text at column 71, or after a comma before it.
2. Put any character but a blank in column 72.
3. Go on in column 16 of the next line.

Shorten a comment or a remark that is too long, and delete blanks at the end: they count. A line of
a script can't be continued: take blanks out. The example below is accepted so:

             RESOURCE PARTITION=((CSS(0),(LPA,1),(LPB,2),(LPC,3),          X
                   (LPD,4),(LPE,5),(LPF,6)))

             RESOURCE PARTITION=((CSS(0),(LPA,1),(LPB,2),(LPC,3),(LPD,4),(LPE,5),(LPF,6)))
refused L2 line 1";

pub const L3_TITLE: &str = "a continuation doesn't begin in column 16";

pub const L3_TEXT: &str =
    "Explanation. The line before this one has something in column 72, so this line continues it. But
this line has something in columns 1 to 15. Comments and blank lines between the two don't count.

System action. No statement was made, of this file or a later one.

Response. If the line belongs to the statement before it, clear columns 1 to 15 and begin its
text in column 16. If it is a statement of its own, clear column 72 of the line before. Often text
of that line ran into column 72 by mistake.

             RESOURCE PARTITION=((LPA,1),                                  X
             (LPB,2))
refused L3 line 2";

pub const L4_TITLE: &str = "a continuation is missing";

pub const L4_TEXT: &str =
    "Explanation. The line that is named is the last one of the file that isn't a comment or blank.
It has something in column 72, so it is continued, and nothing follows.

System action. No statement was made, of this file or a later one.

Response. Is the statement complete? Then its text may have run into column 72: end it before
that column, and clear column 72. Else add the rest from column 16 of the next line. If the end of
the file is missing, get the whole file.

             RESOURCE PARTITION=((LPA,1),                                  X
refused L4 line 1";

pub const L5_TITLE: &str = "a file can't be read";

pub const L5_TEXT: &str =
    "Explanation. The program printed fault L5 on standard error. A file of the command line
couldn't be opened: it isn't there, or may not be read. Or a read failed, as it does of a folder. Or
the file didn't end within 1,048,576 reads. Without --quiet the next line on standard error names
the file, or standard input.

All files are opened before the first is read. Then the deck is read and checked, and after it the
others are read. So the refusal of a deck comes before another file that can't be read, but after
one that can't be opened.

System action. Nothing was printed on standard output, and the exit status is 3.

Response. Look at the file's name: its spelling, its permissions, and whether it is a folder.
ls -l with the same name shows all three. For standard input, look at what is redirected into it.";

pub const L6_TITLE: &str = "the output can't be written";

pub const L6_TEXT: &str =
    "Explanation. The program printed fault L6 on standard error. A write to standard output
failed, often because the disk is full. If the program that read from a pipe has ended, as head
does early, nothing is printed on standard error.

System action. The program stopped at once, with exit status 3. What was written before may end
within a line. If a limit of file sizes (ulimit -f) is reached, the system itself ends the program
by a signal, without this line.

Response. Make room, and run the command again. If the exit status is 3 and nothing was said,
look why the reader of the pipe ended.";

pub const S1_TITLE: &str = "an operation isn't known here";

pub const S1_TEXT: &str =
    "Explanation. The operation is the first word of the statement. If column 1 isn't blank, the
first word is the statement's name, and the operation is the second. It is none of ID, RESOURCE,
CHPID, CNTLUNIT and IODEVICE, or it is missing. A change deck may also have ONLINE, ROW, GROUP,
CHOOSE and END; in a configuration deck these are S1. FUNCTION and IOCP's other statements aren't
supported.

System action. No records were made of the deck.

Response. Look which of these it is:

- A statement that iocm doesn't support, as FUNCTION: delete it. Or make it a comment, with * in
  column 1 of each of its lines.
- A word that begins in column 1, as in the example: put blanks before it.
- A word that is misspelt or in lower case: correct it.
- A line that was to continue the one before: put a character in column 72 of that line.
- A comment whose * isn't in column 1: move it there.
- A statement of change decks: put it into a change deck, and use iocm apply.

    CHPID PATH=50,SHARED
refused S1 line 1";

pub const S2_TITLE: &str = "a keyword comes twice";

pub const S2_TEXT: &str =
    "Explanation. A statement has the same keyword twice, with a value each, as PATH=50,PATH=51.
Bare words, as SHARED, may come twice.

System action. No records were made of the deck.

Response. Look for the keyword in the statement and its continuations. Join the two values into
one, or delete one of them. In the example: UNITADD=((00,16),(20,16)).

             CNTLUNIT CUNUMBR=1000,UNITADD=((00,16)),UNITADD=((20,16))
refused S2 line 1";

pub const S3_TITLE: &str = "a required operand is missing";

pub const S3_TEXT: &str =
    "Explanation. An operand that the statement needs isn't there, or is there without its equals
sign:

Statement                                       Needs
CHPID                                           PATH
CNTLUNIT                                        CUNUMBR
IODEVICE                                        ADDRESS
ONLINE                                          PATH and PARTITION
ADD or MODIFY of a CHPID that is SHARED or REC  both lists in PARTITION

System action. No records were made of the deck, and a change did nothing.

Response. Add the operand. If it seems to be there, the program took it for a remark. Look for
these causes:

- A blank before it: the first blank outside quotes ends the operands.
- It is on a continuation line, and the statement didn't go on there. The line before must end in a
  comma, or run through column 71; in the second case the text goes on exactly in column 16.

For a CHPID in a change deck write the access list and the candidate list:
PARTITION=((LPA),(LPA,LPB)). If they are equal, write = for the second, as in
PARTITION=((LPA,LPB),=). Which images the path is online to is set by ONLINE.

             CNTLUNIT PATH=((CSS(0),50)),UNITADD=((00,16))
refused S3 line 1

    ADD      CHPID PATH=(CSS(0),60),SHARED
refused S3 line 1";

pub const S4_TITLE: &str = "a value is malformed";

pub const S4_TEXT: &str =
    "Explanation. A value isn't in a form that its operand takes. The line names the statement, not
the operand. Often it is one of these:

- a digit that isn't hexadecimal, or one in lower case;
- a number with too many digits, or out of its range;
- an operand, value or item that is empty: two commas in a row, or a comma at the end;
- a name of more than eight characters, or one that begins with a digit;
- a range of devices past FFFF, or of unit addresses past FF;
- a keyword with other characters than A to Z and 0 to 9;
- a keyword without its value, as UNITADD alone, or a word with one, as SHARED=YES;
- SHARED and REC on one path;
- a continuation mark that is no longer in column 72, and so is text.

System action. No records were made of the deck, and a change did nothing.

Response. Compare each operand of the statement with its forms below, and correct the one that
differs. Take away an operand of ADD ONLINE other than PATH and PARTITION.

RESOURCE

Operand    Forms
PARTITION  ((CSS(0),(LPA,1),(LPB,2)),(CSS(1),(LPC,1)))  a group for each channel subsystem
           (CSS(0),(LPA,1))                             one group alone
           ((LPA,1),(LPB,2))                            channel subsystem 0
MAXDEV     ((CSS(0),65280,65535),(CSS(1),,100))         a group for each channel subsystem
           (CSS(0),65280)                               one group alone
           (65280)                                      channel subsystem 0

An image has a name and one digit 1 to F. A name * is no image. The limits are decimal, 0 to
65535, for the subchannel sets 0 to 3 in their order. A set without a limit has an empty place.

CHPID

Operand      Forms
PATH         (CSS(0),50), ((CSS(0),50))
             50, (50)                                      channel subsystem 0
SHARED, REC  the word alone                                not both
PARTITION    (LPA,LPB)                                     the access list
             ((LPA),(LPA,LPB))                             the access and the candidate list
             ((LPA,LPB),=)                                 the candidate list is the access list
             (0,(LPA,LPB))                                 an empty access list
             ((LPA),(LPA,LPB),REC)                         REC as the last item, without SHARED
             (CSS(0),LPA,LPB), ((CSS(0),(LPA),(LPA,LPB)))  with the path's own channel subsystem

PARTITION is always in parentheses.

CNTLUNIT

Operand  Forms
CUNUMBR  1000                          0 to FFFE, without parentheses
PATH     ((CSS(0),50,51),(CSS(1),50))  a group for each channel subsystem
         (CSS(0),50,51)                one group alone
         (50,51)                       channel subsystem 0
UNITADD  ((00,16),(40,8))              ranges: the first address, and a count of 1 to 256
         (00,16)                       one range
         00                            one address
LINK     ((CSS(0),1A,**)), (1A,0B00)   two or four digits, or ** for none
CUADD    1                             one or two digits

PATH and LINK are always in parentheses.

IODEVICE

Operand    Forms
ADDRESS    (1000,4)                     the first device, and a count of 1 to 4096
           1000, (1000)                 one device
CUNUMBR    1000, (1000,2000)
UNITADD    00                           that of the first device, without parentheses
SCHSET     1                            0 to 3, without parentheses
PARTITION  LPA, (LPA,LPB)
           ((CSS(0),LPA),(CSS(1),LPC))
           0                            no images

A channel subsystem is decimal, 0 to 5, and so are counts and limits. All other numbers are
hexadecimal. A name has one to eight letters and digits in upper case, begins with a letter, and
isn't REC.

             IODEVICE ADDRESS=(FFFE,4),CUNUMBR=1000
refused S4 line 1

             CHPID PATH=(CSS(0),5G),SHARED
refused S4 line 1";

pub const S5_TITLE: &str = "a form of IOCP isn't supported";

pub const S5_TEXT: &str = "Explanation. IOCP takes this form, and iocm doesn't. It is one of these:

- several path numbers on one CHPID, as PATH=(CSS(0),50,51);
- several channel subsystems in one CSS(..), as CSS(0,1), in any operand of the tables of S4;
- NOTPART on CHPID or IODEVICE;
- a list for SCHSET;
- in a change deck, MODIFY ONLINE.

An operand that isn't in those tables is never S5: its text is kept as it is. A CSS(..) with
anything else between its parentheses, as CSS(CSS(0,1)), is S4. So is an item that goes on after
a list, as ((50)51,52).

System action. No records were made of the deck, and a change did nothing.

Response. Write the same in another form.

Several channel subsystems or paths on a CHPID: one CHPID for each path and channel subsystem. In
PARTITION of each, name only images of its channel subsystem. Before:

             CHPID PATH=(CSS(0,1,2),50),SHARED

After:

             CHPID PATH=(CSS(0),50),SHARED
             CHPID PATH=(CSS(1),50),SHARED
             CHPID PATH=(CSS(2),50),SHARED

Several channel subsystems in another operand: one group for each. Before:

             CNTLUNIT CUNUMBR=1000,PATH=((CSS(0,1),50,51))

After:

             CNTLUNIT CUNUMBR=1000,PATH=((CSS(0),50,51),(CSS(1),50,51))

In PARTITION of RESOURCE each image is in one group only, since its name may come once (V1). In
PARTITION of IODEVICE leave CSS(..) out: PARTITION=(LPA,LPC). An operand that has no groups in
the tables, as CUADD, takes a plain value.

NOTPART: PARTITION with the images that NOTPART leaves over. Let channel subsystem 0 have the
images LPA, LPB and LPC. Before:

             CHPID PATH=(CSS(0),50),SHARED,NOTPART=((LPB,LPC),(LPC))
             IODEVICE ADDRESS=1000,CUNUMBR=1000,NOTPART=(LPC)

After:

             CHPID PATH=(CSS(0),50),SHARED,PARTITION=((LPA),(LPA,LPB))
             IODEVICE ADDRESS=1000,CUNUMBR=1000,PARTITION=(LPA,LPB)

A list for SCHSET: one set for the device, in all channel subsystems. Before:

             IODEVICE ADDRESS=1000,CUNUMBR=1000,SCHSET=((CSS(0,1),1))

After:

             IODEVICE ADDRESS=1000,CUNUMBR=1000,SCHSET=1

A device can't be in one set here and in another there. If it must be, write two IODEVICE
statements, and give each a control unit of its own, with the paths of its channel subsystem. On one
control unit the two would have the same unit address, which is V10. Before:

             CNTLUNIT CUNUMBR=1000,PATH=((CSS(0),50),(CSS(1),50))
             IODEVICE ADDRESS=1000,CUNUMBR=1000,                           X
                   SCHSET=((CSS(0),0),(CSS(1),1))

After:

             CNTLUNIT CUNUMBR=1000,PATH=((CSS(0),50))
             CNTLUNIT CUNUMBR=1100,PATH=((CSS(1),50))
             IODEVICE ADDRESS=1000,CUNUMBR=1000,SCHSET=0
             IODEVICE ADDRESS=1000,CUNUMBR=1100,SCHSET=1

MODIFY ONLINE: an online record has nothing to modify. Write ADD ONLINE to bring the path online
to an image, and DELETE ONLINE to take it offline.

             CHPID PATH=(CSS(0),50,51),SHARED
refused S5 line 1

    MODIFY   ONLINE PATH=(CSS(0),51),PARTITION=(LPB)
refused S5 line 1";

pub const S6_TITLE: &str = "parentheses or quotes don't match";

pub const S6_TEXT: &str =
    "Explanation. In the operands a parenthesis isn't closed, one is closed that wasn't opened, or a
quote has no end.

System action. No records were made of the deck.

Response. Count the parentheses and quotes of the statement, with its continuations. In the
example one more closing parenthesis is missing at the end. If they seem to match, a part of the
text was left out. Look for these causes:

- A blank inside the operands: what follows it is a remark.
- Text in column 72: that column only says that the statement is continued.
- A continuation whose text begins after column 16, if the line before doesn't end in a comma.

             RESOURCE PARTITION=((CSS(0),(LPA,1),(LPB,2))
refused S6 line 1";

pub const S7_TITLE: &str = "ID or RESOURCE comes twice";

pub const S7_TEXT: &str =
    "Explanation. A deck has at most one RESOURCE statement, and at most one ID. The line is that of
the second.

System action. No records were made of the deck.

Response. Put the operands of the two into one statement, and delete the other. In the example:
RESOURCE PARTITION=((CSS(0),(LPA,1)),(CSS(1),(LPB,1))).

             RESOURCE PARTITION=((CSS(0),(LPA,1)))
             RESOURCE PARTITION=((CSS(1),(LPB,1)))
refused S7 line 2";

pub const S8_TITLE: &str = "a record comes twice";

pub const S8_TEXT: &str =
    "Explanation. The statement brings a record that the deck has already, or brings one twice. That
is the same image digit or channel path of a channel subsystem, or the same control unit. Or it is
the same device number of a subchannel set. The line is that of the statement that brings it again.

System action. No records were made of the deck.

Response. Look for the first statement with the same number, which is above the line named. For
a device that may be a range: ADDRESS=(1000,4) has 1003 too. Delete one of the two, give it
another number, or make the range shorter. In the example the second statement is accepted once the
first has ADDRESS=(1000,3). For RESOURCE give each image of a channel subsystem a digit of its
own.

             CNTLUNIT CUNUMBR=1000,UNITADD=((00,16))
             IODEVICE ADDRESS=(1000,4),CUNUMBR=1000
             IODEVICE ADDRESS=1003,CUNUMBR=1000,UNITADD=08
refused S8 line 3";

pub const S9_TITLE: &str = "an END has no beginning, or a beginning no END";

pub const S9_TEXT: &str =
    "Explanation. In a change deck an END has no ROW, GROUP or CHOOSE before it that is still open.
Or one of these isn't closed: then the line is that of the innermost one that is open.

System action. The change deck was read up to there, and nothing was changed.

Response. Go through the deck from the top and match each END with the last open ROW, GROUP or
CHOOSE. Add the END that is missing, or delete the one too many.

             GROUP
    DELETE   IODEVICE ADDRESS=1003
refused S9 line 1";

pub const S10_TITLE: &str = "a change statement has no verb";

pub const S10_TEXT: &str =
    "Explanation. In a change deck the name field, from column 1, has the verb: ADD, DELETE or
MODIFY, in upper case. It is missing here, or is another word.

System action. The change deck was read up to there, and nothing was changed.

Response. Write the verb in column 1, and at least one blank after it. ROW, GROUP, CHOOSE and
END have no verb. If the file is a configuration deck, the words of the command line are in the
wrong order: the deck comes first.

             IODEVICE ADDRESS=2000,CUNUMBR=1000
refused S10 line 1";
