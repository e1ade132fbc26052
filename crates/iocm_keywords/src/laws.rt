//! What holds of the definitions themselves. The law is the contract of a function that does
//! nothing.
ghost use Rattle.iocm_keywords.specs.Examples.{ListsSeen, PathsNamed, SubsystemsNamed};

/// Which values are in a form that is left out is as it is stated by hand.
pub fn forms_are_left_out_as_worked()
    ensures subsystems { SubsystemsNamed }
    ensures paths { PathsNamed }
    ensures lists { ListsSeen }
{}
