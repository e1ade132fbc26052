//! What holds of the definitions themselves. Each law is the contract of a function that does nothing.
ghost use Rattle.iocm_impact.specs.Examples.{BlocksAreAsWorked, CountsAreAsWorked, ImagesAreAsWorked, RowsAreAsWorked};
ghost use Rattle.iocm_impact.specs.Laws.{CountsAreRows, DevicesAreCountedOnce, RowsAreAllThatDiffer};

/// The rows of an image, device by device, are the devices of both configurations of which a row is told, each once
/// and in order; and each row says what is told of each of its devices.
///
/// Promise: the rows of a plan have each device of which they tell once, and none is missing.
#[tactic(auto, using(crate::proofs::Written::rows_differ))]
pub fn rows_are_all_that_differ()
    ensures { RowsAreAllThatDiffer }
{}

/// The counts of an image are the numbers of devices that have each mark for it, device by device.
///
/// Promise: the counts of an image in a plan are the numbers of its devices.
#[tactic(auto, using(crate::proofs::Counted::counts_are_rows))]
pub fn counts_are_rows()
    ensures { CountsAreRows }
{}

/// The counts of devices are the numbers of devices that have each mark for some image: a device counts once, whatever
/// the number of images.
///
/// Promise: the totals of a plan count each device once.
#[tactic(auto, using(crate::proofs::Counted::devices_counted_once))]
pub fn devices_are_counted_once()
    ensures { DevicesAreCountedOnce }
{}

/// Marks and counts, rows that are joined or not, blocks and images are as they are worked by hand.
pub fn impacts_are_as_worked()
    ensures counts { CountsAreAsWorked }
    ensures rows { RowsAreAsWorked }
    ensures blocks { BlocksAreAsWorked }
    ensures images { ImagesAreAsWorked }
{}
