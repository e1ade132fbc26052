//! What holds of the definitions themselves. Each law is the contract of a function that does
//! nothing.
ghost use Rattle.iocm_lines.specs.Again.{PlainIsReadBack, LinesAreReadBack, LineTellsTheRow, LineTellsTheAltered};
ghost use Rattle.iocm_lines.specs.Examples.{SubchannelsAsWorked, CountsAsWorked, RefusalsAsWorked, AlteredAsWorked, AnswersAsWorked};

/// Lines are written as it is worked by hand.
pub fn lines_are_as_worked()
    ensures subchannels { SubchannelsAsWorked }
    ensures counts { CountsAsWorked }
    ensures refusals { RefusalsAsWorked }
    ensures altered { AlteredAsWorked }
    ensures answers { AnswersAsWorked }
{}

/// The text of each plain value is read back as that value.
#[tactic(auto, using(crate::proofs::ReadBack::plain_is_read_back))]
pub fn plain_values_are_read_back()
    ensures { PlainIsReadBack }
{}

/// Each line is read back as what it tells.
///
/// Promise: a line of JSON is read back as what it tells.
#[tactic(auto, using(crate::proofs::Lines::lines_are_read_back))]
pub fn lines_are_read_back()
    ensures { LinesAreReadBack }
{}

/// Rows of subchannels with the same line are the same row, and so are rows of altered subchannels.
#[tactic(auto, using(crate::proofs::Rows::line_tells_the_row, crate::proofs::Rows::line_tells_the_altered))]
pub fn line_tells_the_row()
    ensures row { LineTellsTheRow }
    ensures altered { LineTellsTheAltered }
{}
