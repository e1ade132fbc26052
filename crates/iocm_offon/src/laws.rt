//! What holds of the definitions themselves. Each law is the contract of a function that does nothing.
ghost use Rattle.iocm_offon.specs.Examples.{PathsAreToldAsWorked, ReasonsAreAsWorked};
ghost use Rattle.iocm_offon.specs.Laws.{EachPathOffAndOnHasAReason, OtherRoutesHaveReasons};

/// A path has a reason exactly if its route is another; so of an image and devices just those paths have reasons that
/// stay online by another route.
///
/// Promise: each path that may go off and on again has a reason, and each reason is that of such a path.
#[tactic(auto, using(crate::proofs::HaveReasons::other_routes, crate::proofs::HaveReasons::each_path))]
pub fn each_path_off_and_on_has_a_reason()
    ensures routes { OtherRoutesHaveReasons }
    ensures paths { EachPathOffAndOnHasAReason }
{}

/// Reasons of small changes, and paths as they are told, are as they are worked by hand.
#[tactic(auto, using(crate::proofs::Worked::reasons_as_worked, crate::proofs::Worked::paths_as_worked))]
pub fn reasons_are_as_worked()
    ensures reasons { ReasonsAreAsWorked }
    ensures paths { PathsAreToldAsWorked }
{}
