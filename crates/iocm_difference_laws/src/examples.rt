ghost use Rattle.iocm_difference_laws.specs.Examples.{ADeviceKeepsItsNumber};

/// A device that stays keeps its number, though it is at or above a new limit. So the change of a
/// difference is refused, although both configurations keep the rules when they are opened.
pub fn a_device_keeps_its_number()
    ensures { ADeviceKeepsItsNumber }
{}
