ghost use Rattle.iocm_model.specs.Laws.Numbers.{
  LowestFreeIsFree,
  LowestFreeIsFound,
  ReachedPlacesAreOfDevices,
  NumbersAfterAreExact,
  StayersKeepTheirs,
  CarriedComeBack,
  RestGetTheLowest,
  OpeningIsFromNone,
  NumbersAfterAreNumbers,
  RenumberingGoesBack,
  FreedAreNotTaken,
  OpeningAreNumbers,
  CellsAreTheNumbers,
};

/// A place of a channel subsystem from 0 to 5 and a set from 0 to 3 is reached exactly where its
/// device is there and its path list isn't empty, in a configuration with each record under its own
/// key.
pub fn reached_places_are_of_devices()
    ensures { ReachedPlacesAreOfDevices }
{}

/// In each channel subsystem and set each device that is reached there has a number, and no two
/// have the same: at opening, and after a change whose carried numbers are free.
///
/// Promise: at the opening just the devices that are reached have a number, and each has its own.
pub fn no_number_comes_twice()
    ensures opening { OpeningAreNumbers }
    ensures change { NumbersAfterAreNumbers }
{}

/// After a change exactly the devices that the new configuration reaches have a number; those that
/// stay keep theirs, those that come back with their place get it, and the rest get the lowest free
/// ones in order of device number. The numbers at opening are those that come of it where there was
/// none before. What the rest get, and the numbers at opening, are said of configurations with each
/// record under its own key.
///
/// Promise: devices that stay keep their numbers; a new one gets its carried number or the lowest.
pub fn numbers_after_a_change()
    ensures exact { NumbersAfterAreExact }
    ensures stay { StayersKeepTheirs }
    ensures come_back { CarriedComeBack }
    ensures rest { RestGetTheLowest }
    ensures opening { OpeningIsFromNone }
{}

/// The lowest free number of a channel subsystem and set isn't used, and each smaller one is; where
/// fewer numbers than some count are used, it is below that count, so an arriving device always
/// finds one.
pub fn the_lowest_free_number_is_free()
    ensures free { LowestFreeIsFree }
    ensures found { LowestFreeIsFound }
{}

/// With the places that a change freed the old numbers of a configuration come back, and none of
/// them is taken then.
pub fn numbers_go_back()
    ensures back { RenumberingGoesBack }
    ensures free { FreedAreNotTaken }
{}

/// Number cells and the numbers of a configuration say the same.
pub fn cells_are_the_numbers()
    ensures { CellsAreTheNumbers }
{}
