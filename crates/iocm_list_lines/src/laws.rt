//! What holds of the definitions themselves. Each law is the contract of a function that does
//! nothing.
ghost use Rattle.iocm_list_lines.specs.Again.{LinesAreReadBack};
ghost use Rattle.iocm_list_lines.specs.Examples.{LinesAsWorked};

/// Lines of each kind are written as it is worked by hand.
pub fn lines_are_as_worked()
    ensures { LinesAsWorked }
{}

/// Each line is read back as what it tells.
///
/// Promise: a line of JSON of what is listed is read back as what it tells.
#[tactic(auto, using(crate::proofs::ReadBack::lines_are_read_back))]
pub fn lines_are_read_back()
    ensures { LinesAreReadBack }
{}
