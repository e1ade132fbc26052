use iocm_types::Answer;

/// What came of a line of a script.
#[derive(Clone, Copy, PartialEq, Eq)]
pub struct Answered {
    /// The number of the line.
    pub line: usize,
    /// What was answered.
    pub answer: Answer,
}
