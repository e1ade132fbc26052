//! What holds of the definitions themselves. Each law is the contract of a function that does
//! nothing.
ghost use Rattle.iocm_record_lines.specs.Again.{LinesAreReadBack};
ghost use Rattle.iocm_record_lines.specs.Examples.{RecordsAsWorked};

/// Lines of records and of edits are written as it is worked by hand.
pub fn records_are_as_worked()
    ensures { RecordsAsWorked }
{}

/// Each line is read back as what it tells.
///
/// Promise: a line of JSON of a record or an edit is read back as what it tells.
#[tactic(auto, using(crate::proofs::ReadBack::lines_are_read_back))]
pub fn lines_are_read_back()
    ensures { LinesAreReadBack }
{}
