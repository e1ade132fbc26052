//! What holds of the definitions themselves. Each law is the contract of a function that does nothing.
ghost use Rattle.iocm_objects.specs.Examples.{ChangesAreAsWorked, FieldsAreAsWorked};
ghost use Rattle.iocm_objects.specs.MoreExamples.{CountsAreAsWorked, LinesAreAsWorked, ObjectsAreAsWorked};
ghost use Rattle.iocm_objects.specs.MoreExamples.{RunsAreAsWorked, after, before};
ghost use Rattle.iocm_objects.specs.Laws.{ObjectsAreTheKeysThatDiffer, ObjectsStandInOrder, RunsAreObjects};

/// The objects of the runs, one by one, are the objects, each with what is told of it: so nothing is lost by joining
/// devices.
#[tactic(auto, using(crate::proofs::RunObjects::runs_are_objects))]
pub fn runs_are_objects()
    ensures { RunsAreObjects }
{}

/// A key is among the objects exactly where it is added, deleted or changed, and the objects stand in the order of keys,
/// each key once.
#[tactic(auto, using(crate::proofs::KeysThatDiffer::objects_are_keys, crate::proofs::KeysThatDiffer::objects_in_order))]
pub fn objects_are_the_keys_that_differ()
    ensures keys { ObjectsAreTheKeysThatDiffer }
    ensures order { ObjectsStandInOrder }
{}

/// What is told of records that come, go or change, and runs, lines and counts of objects are as they are worked by hand.
pub fn objects_are_as_worked()
    ensures fields { FieldsAreAsWorked }
    ensures changes { ChangesAreAsWorked }
    ensures runs { RunsAreAsWorked }
    ensures lines { LinesAreAsWorked }
    ensures counts { CountsAreAsWorked }
    ensures objects { ObjectsAreAsWorked before after }
{}
