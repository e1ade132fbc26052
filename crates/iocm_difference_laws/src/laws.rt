ghost use Rattle.iocm_difference_laws.specs.Again.{
  DifferenceIsReadAgainAsOne,
  DifferencesAreGiven,
  TextMeansTheDifference,
};
ghost use Rattle.iocm_difference_laws.specs.Meaning.{
  DifferenceMeans,
  NamesNoneWithRoom,
  NamesTheLeast,
  OneRowIsATree,
  ReachesTheNew,
};
ghost use Rattle.iocm_difference_laws.specs.Room.{DifferenceHasRoom, RoomIsEnough};
ghost use Rattle.iocm_difference_laws.specs.WayBack.{InverseIsTheOtherDifference};

/// On the machine that is opened from the old configuration the change of the difference is refused
/// with C2, where it has too many edits. Else it is refused with V13, where a device has no room in
/// the new configuration. Else all its edits are performed, and the new configuration is reached.
///
/// Promise: a difference leads to the new deck's configuration, or it is refused C2 or V13.
pub fn the_difference_means_the_new_configuration()
    ensures means { DifferenceMeans }
    ensures reaches { ReachesTheNew }
    ensures trees { OneRowIsATree }
{}

/// The device that V13 names then is the least that has a number at or above its limit. None is
/// named exactly where each has room.
pub fn the_least_device_without_room_is_named()
    ensures least { NamesTheLeast }
    ensures none { NamesNoneWithRoom }
{}

/// Where each limit of the new configuration is at least the number of devices of its set, in the
/// old configuration and in the new one, each device has room. So V13 doesn't come.
pub fn the_difference_has_room()
    ensures room { DifferenceHasRoom }
    ensures accepted { RoomIsEnough }
{}

/// Where the change is accepted, its inverse tree has the actions of the difference the other way
/// round, in some order.
pub fn the_inverse_is_the_other_difference()
    ensures { InverseIsTheOtherDifference }
{}

/// The text of the difference of two configurations that decks give is read, from the bytes of its
/// change deck, as that difference. The tree that is read means what the difference means.
pub fn the_text_means_the_difference()
    ensures given { DifferencesAreGiven }
    ensures again { DifferenceIsReadAgainAsOne }
    ensures means { TextMeansTheDifference }
{}
