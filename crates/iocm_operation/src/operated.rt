use crate::answered::Answered;
use iocm_core::Closed;

/// What came of a script.
#[derive(Drop)]
pub struct Operated {
    /// The machine that it left, with its trace.
    pub closed: Closed,
    /// The answer to each line, in the order of the lines.
    pub answers: Vec<Answered>,
}
