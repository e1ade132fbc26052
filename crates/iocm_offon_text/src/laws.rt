//! What holds of the definitions themselves. Each law is the contract of a function that does nothing.
ghost use Rattle.iocm_offon_text.specs.Examples.{OffOnIsToldAsWorked};
ghost use Rattle.iocm_offon_text.specs.Laws.{EachReasonIsToldInALine};

/// The lines have just the reasons of the objects: each is told in a line, and no line has another.
///
/// Promise: each reason of an object of a plan is told in a line, and each line tells reasons alone.
#[tactic(auto, using(crate::proofs::ToldReasons::each_told))]
pub fn each_reason_is_told_in_a_line()
    ensures { EachReasonIsToldInALine }
{}

/// What is told of small changes is as it is worked by hand.
#[tactic(auto, using(crate::proofs::Worked::told_as_worked))]
pub fn paths_off_and_on_are_told_as_worked()
    ensures { OffOnIsToldAsWorked }
{}
