ghost use Rattle.iocm_examples.specs.Numbers.{BaseNumbers, ADeviceComesIn, ANumberIsUsedAgain};
ghost use Rattle.iocm_examples.specs.Numbers.{ANumberComesAlong, ASecondSubsystem};

/// The numbers of the example deck at opening, and those that devices get and free by edits of it,
/// with the subchannels that are altered, computed.
pub fn numbers_are_as_worked()
    ensures opening { BaseNumbers }
    ensures comes_in { ADeviceComesIn }
    ensures used_again { ANumberIsUsedAgain }
    ensures comes_along { ANumberComesAlong }
    ensures second { ASecondSubsystem }
{}
