// Written by tests/messages --write from docs/MESSAGES.md: change the entries there, not here.

pub const V1_TITLE: &str = "two images have the same name";

pub const V1_TEXT: &str =
    "Explanation. Two images have the same name, in one channel subsystem or in two. The one with the
greater key is named: image 1.1 is digit 1 of channel subsystem 1.

System action. A deck isn't opened. A change is taken back as a whole.

Response. The other image has a lower channel subsystem, or the same one and a lower digit. In
PARTITION of RESOURCE look up the name of the image that is named, and look for the same name there.
Give one of the two another name. Change that name also in PARTITION of the CHPIDs and IODEVICEs
that mean this image. In a change, either of the two may be the one that was added: the one that is
named may be the deck's.

             RESOURCE PARTITION=((CSS(0),(LPA,1)),(CSS(1),(LPA,1)))
refused V1 image 1.1";

pub const V2_TITLE: &str = "a path lists a name that is no image";

pub const V2_TEXT: &str =
    "Explanation. A name in the access or candidate list of the path isn't that of an image of the
path's channel subsystem. An image of another channel subsystem doesn't count.

System action. A deck isn't opened. A change is taken back as a whole.

Response. For path 0.50, compare each name in PARTITION of the CHPID with PATH=(CSS(0),50)
with the names in CSS(0) of RESOURCE. Correct the name, take it out of the list, or add the image
to RESOURCE. Does the change delete or rename an image? Then add a MODIFY of each CHPID that has the
image in a list.

             RESOURCE PARTITION=((CSS(0),(LPA,1)))
             CHPID PATH=(CSS(0),50),SHARED,PARTITION=((LPA),(LPA,LPB))
refused V2 path 0.50";

pub const V3_TITLE: &str = "a path has more images than its kind allows";

pub const V3_TEXT: &str =
    "Explanation. A path without SHARED and without REC is dedicated: both its lists together have
one image at most. A REC path may have several candidates, but one image at most in its access list.
A misspelt SHARED, as SHARD, is kept and has no effect.

System action. A deck isn't opened. A change is taken back as a whole.

Response. Look at PARTITION of the CHPID that is named. If the images use the path at the same
time, add SHARED, or correct its spelling. If they use it one at a time, write REC, one image in the
access list and all of them in the candidate list: REC,PARTITION=((LPA),(LPA,LPB)). Otherwise take
out all images but one.

             RESOURCE PARTITION=((CSS(0),(LPA,1),(LPB,2)))
             CHPID PATH=(CSS(0),52),PARTITION=(LPA,LPB)
refused V3 path 0.52";

pub const V4_TITLE: &str = "an image is online where it can't be";

pub const V4_TEXT: &str =
    "Explanation. After the change an image would be online at a path where it can't be.
online 0.52.LPA is image LPA at path 52 of channel subsystem 0. The path isn't there, or doesn't
list the image, or is dedicated or REC and another image is online there too. The one of the two
whose name comes later in the alphabet is named, so it may be the one that was online before. Only a
change causes this, since a deck's online records come from its access lists. With check --all it
also follows a deck's V3 at the same path, and is gone once that is mended.

System action. The change is taken back as a whole.

Response. Look at the path that is named, in the change deck and in the deck:

- There is no such CHPID: add it, or correct PATH of the ADD ONLINE, or delete that statement.
- The change deletes the CHPID: add DELETE ONLINE PATH=(CSS(0),52),PARTITION=(LPA).
- Neither list of the CHPID has the image: add it to the candidate list, by MODIFY CHPID. If the
  change takes the image out of the lists, add the same DELETE ONLINE.
- The path is dedicated or REC: add a DELETE ONLINE of the other image to the change. The images
  that are online are those of the deck's access list and of ADD ONLINE.

    ADD      ONLINE PATH=(CSS(0),52),PARTITION=(LPA)
refused V4 node 0 online 0.52.LPA

    ADD      CHPID PATH=(CSS(0),52),REC,PARTITION=((LPA),(LPA,LPB))
    ADD      ONLINE PATH=(CSS(0),52),PARTITION=(LPA,LPB)
refused V4 node 0 online 0.52.LPB";

pub const V5_TITLE: &str = "a control unit's paths are missing, too many or wrong";

pub const V5_TEXT: &str =
    "Explanation. The control unit has no path. Or in one channel subsystem it has more than eight, a
path twice, or one for which there is no CHPID.

System action. A deck isn't opened. A change is taken back as a whole.

Response. Look at PATH of the CNTLUNIT with this CUNUMBR, and add it if it is missing. In each
channel subsystem count its paths, and compare each with the CHPIDs of the same channel subsystem.
PATH=(50,51) is for channel subsystem 0. Add the CHPID, or correct or take out the path. Does the
change delete a CHPID? Then add a MODIFY of each CNTLUNIT that has this path in PATH. Does it modify
the CNTLUNIT? Then it must have PATH, also if the paths stay.

             RESOURCE PARTITION=((CSS(0),(LPA,1)))
             CHPID PATH=(CSS(0),50),SHARED
             CNTLUNIT CUNUMBR=1000,PATH=((CSS(0),50,51)),UNITADD=((00,16))
refused V5 unit 1000";

pub const V6_TITLE: &str = "a control unit's links don't match its paths";

pub const V6_TEXT: &str =
    "Explanation. In a channel subsystem for which LINK has a list, the control unit has more links
than paths, or fewer. The links are those of the paths, in the same order.

System action. A deck isn't opened. A change is taken back as a whole.

Response. Compare LINK with PATH in the CNTLUNIT with this CUNUMBR, one channel subsystem after
the other. Add a link for each path that has none, and write ** for a path without a switch. Or
take out the links that are too many, and a channel subsystem in which PATH has no path. In the
example: LINK=((CSS(0),1A,**)). A channel subsystem that LINK leaves out needs no links.

             RESOURCE PARTITION=((CSS(0),(LPA,1)))
             CHPID PATH=(CSS(0),50),SHARED
             CHPID PATH=(CSS(0),51),SHARED
             CNTLUNIT CUNUMBR=1000,PATH=((CSS(0),50,51)),LINK=((CSS(0),1A))
refused V6 unit 1000";

pub const V7_TITLE: &str = "a control unit's unit addresses overlap or pass FF";

pub const V7_TEXT: &str =
    "Explanation. A range of unit addresses of the control unit passes FF, or two of its ranges have
an address in common.

System action. A deck isn't opened. A change is taken back as a whole.

Response. Look at UNITADD of the CNTLUNIT with this CUNUMBR. The first number of a range is
hexadecimal, and the count is decimal: (F8,8) is F8 to FF. Make the range shorter, or let the
ranges begin after one another. In the example: UNITADD=((F8,8)).

             RESOURCE PARTITION=((CSS(0),(LPA,1)))
             CHPID PATH=(CSS(0),50),SHARED
             CNTLUNIT CUNUMBR=1000,PATH=((CSS(0),50)),UNITADD=((F8,16))
refused V7 unit 1000";

pub const V8_TITLE: &str = "a device's control units are missing, too many or wrong";

pub const V8_TEXT: &str =
    "Explanation. The device has no control unit, more than eight, one of them twice, or one for
which there is no CNTLUNIT. device 0.1000 is device 1000 of subchannel set 0.

System action. A deck isn't opened. A change is taken back as a whole.

Response. Look at CUNUMBR of the IODEVICE whose ADDRESS has the device, with SCHSET of that set.
Add CUNUMBR if it is missing. Compare each of its numbers with CUNUMBR of the CNTLUNITs. Add the
CNTLUNIT, or correct or take out the number. Does the change delete a CNTLUNIT? Then add a MODIFY or
a DELETE of each device on it. Does it modify the IODEVICE? Then it must have CUNUMBR, also if the
control units stay.

             RESOURCE PARTITION=((CSS(0),(LPA,1)))
             IODEVICE ADDRESS=1000,CUNUMBR=1000
refused V8 device 0.1000";

pub const V9_TITLE: &str = "a control unit doesn't have the device's unit address";

pub const V9_TEXT: &str =
    "Explanation. One of the device's control units has no range with the device's unit address. That
address is UNITADD of the IODEVICE, and one more for each place in the range of devices. Without
UNITADD it is the last two digits of the device number. device 0.1010 is device 1010 of subchannel
set 0.

System action. A deck isn't opened. A change is taken back as a whole.

Response. Work out the unit address of the device. Compare it with UNITADD of each CNTLUNIT in
CUNUMBR of the IODEVICE; a CNTLUNIT without UNITADD has 00 to FF. Then change one of the two: give
the IODEVICE another UNITADD, or the CNTLUNIT a longer range. In the example, device 1010 has unit
address 10, and the control unit has 00 to 0F: UNITADD=((00,17)) holds both. In a change the cause
may be a MODIFY of the CNTLUNIT.

             RESOURCE PARTITION=((CSS(0),(LPA,1)))
             CHPID PATH=(CSS(0),50),SHARED
             CNTLUNIT CUNUMBR=1000,PATH=((CSS(0),50)),UNITADD=((00,16))
             IODEVICE ADDRESS=1010,CUNUMBR=1000
refused V9 device 0.1010";

pub const V10_TITLE: &str = "two devices have the same unit address";

pub const V10_TEXT: &str =
    "Explanation. Two devices on one control unit have the same unit address. The one with the
greater number is named, in the order of sets first. device 0.2000 is device 2000 of subchannel
set 0.

System action. A deck isn't opened. A change is taken back as a whole.

Response. Work out the unit address of the device that is named: UNITADD of its IODEVICE, plus
its place in the range, from 0; without UNITADD the last two digits of its number. Look at each
IODEVICE that has one of the same control units in CUNUMBR. One of its devices, with a lower set or
number, has the same unit address. Give one of the two another UNITADD, or another control unit. In
the example device 1000 has unit address 00 too: UNITADD=01 for 2000 mends it. In a change, the
device that was added may be the lower one, which isn't named: see the second example.

             RESOURCE PARTITION=((CSS(0),(LPA,1)))
             CHPID PATH=(CSS(0),50),SHARED
             CNTLUNIT CUNUMBR=1000,PATH=((CSS(0),50)),UNITADD=((00,16))
             IODEVICE ADDRESS=1000,CUNUMBR=1000
             IODEVICE ADDRESS=2000,CUNUMBR=1000
refused V10 device 0.2000

    ADD      IODEVICE ADDRESS=0FFF,CUNUMBR=1000,UNITADD=00
refused V10 node 0 device 0.1000";

pub const V11_TITLE: &str = "a device has too many paths, or one path twice";

pub const V11_TEXT: &str =
    "Explanation. In one channel subsystem the paths of all control units of the device are more than
eight together. Or two of its control units have a path in common. device 0.1000 is device 1000 of
subchannel set 0.

System action. A deck isn't opened. A change is taken back as a whole.

Response. For each control unit in CUNUMBR of the IODEVICE write down PATH of its CNTLUNIT, one
channel subsystem after the other. If a path comes twice, or there are more than eight, take the
path out of a CNTLUNIT. Or take a control unit out of CUNUMBR. In the example both control units
have path 50. In a change the cause may be a MODIFY of a CNTLUNIT.

             RESOURCE PARTITION=((CSS(0),(LPA,1)))
             CHPID PATH=(CSS(0),50),SHARED
             CNTLUNIT CUNUMBR=1000,PATH=((CSS(0),50)),UNITADD=((00,16))
             CNTLUNIT CUNUMBR=2000,PATH=((CSS(0),50)),CUADD=1
             IODEVICE ADDRESS=1000,CUNUMBR=(1000,2000)
refused V11 device 0.1000";

pub const V12_TITLE: &str = "a device's candidate is no image";

pub const V12_TEXT: &str =
    "Explanation. PARTITION of the IODEVICE has a name that no image of any channel subsystem has.
device 0.1000 is device 1000 of subchannel set 0.

System action. A deck isn't opened. A change is taken back as a whole.

Response. Compare each name in PARTITION of the IODEVICE that has the device with the names in
PARTITION of RESOURCE. Correct the name, take it out, or add the image to RESOURCE. Does the change
delete or rename an image? Then add a MODIFY of each IODEVICE with that name.

             RESOURCE PARTITION=((CSS(0),(LPA,1)))
             CHPID PATH=(CSS(0),50),SHARED
             CNTLUNIT CUNUMBR=1000,PATH=((CSS(0),50)),UNITADD=((00,16))
             IODEVICE ADDRESS=1000,CUNUMBR=1000,PARTITION=LPB
refused V12 device 0.1000";

pub const V13_TITLE: &str = "there are more devices than MAXDEV allows";

pub const V13_TEXT: &str =
    "Explanation. In a channel subsystem the subchannel number of the device is at or above the limit
of its subchannel set. The limits are in MAXDEV of RESOURCE. Without MAXDEV they are 65280 in set 0,
and 65535 in the sets 1 to 3.

System action. A deck isn't opened. A change is taken back as a whole.

Response. The first number of the key is the set. In each channel subsystem for which MAXDEV has
a limit of this set, count the devices of the set that have a path there. Raise the limit to that
count (at most 65535), or take devices away. In the example: MAXDEV=((CSS(0),4)). On a running
machine a device keeps its number while others go, so a number can be above the count. Does the
change lower a limit? It must be above each number of the set in the column SUBC, which is
hexadecimal.

             RESOURCE PARTITION=((CSS(0),(LPA,1))),MAXDEV=((CSS(0),3))
             CHPID PATH=(CSS(0),50),SHARED
             CNTLUNIT CUNUMBR=1000,PATH=((CSS(0),50)),UNITADD=((00,16))
             IODEVICE ADDRESS=(1000,4),CUNUMBR=1000
refused V13 device 0.1003";

pub const V14_TITLE: &str = "two control units have the same address";

pub const V14_TEXT: &str =
    "Explanation. Two control units answer to the same unit address on the same path. They share a
path on which both have the same link, or neither has one. They have the same CUADD; none counts as
00. And a range of unit addresses of one overlaps a range of the other. The one with the greater
number is named.

System action. A deck isn't opened. A change is taken back as a whole.

Response. The other one has a lower CUNUMBR, and a path in PATH in common with the one that is
named. To find it, look for that path in PATH of the CNTLUNITs, and compare their CUADD, their LINK
and then their UNITADD. A CNTLUNIT without UNITADD has the addresses 00 to FF. Change one of the
two:

- two logical control units of one box: another CUADD, as CUADD=1;
- two control units on a switch: in LINK, their own link for the path;
- else ranges in UNITADD that don't overlap, as UNITADD=((10,16)) in the example, or other paths.

A device's unit address must be in the ranges of its control unit, so look at the IODEVICEs too. In
a change, the control unit that was added may be the lower one, which isn't named: see the second
example.

             RESOURCE PARTITION=((CSS(0),(LPA,1)))
             CHPID PATH=(CSS(0),50),SHARED
             CNTLUNIT CUNUMBR=1000,PATH=((CSS(0),50)),UNITADD=((00,16))
             CNTLUNIT CUNUMBR=2000,PATH=((CSS(0),50)),UNITADD=((0F,16))
refused V14 unit 2000

    ADD      CNTLUNIT CUNUMBR=0FFF,PATH=((CSS(0),50)),UNITADD=((00,16))
refused V14 node 0 unit 1000";
