use crate::Said;

/// A line of a script in which an actor says something.
#[derive(Clone, Copy, PartialEq, Eq)]
pub struct Line {
    /// The number of the line, counted from 1 over all lines of the script.
    pub line: usize,
    /// Who says what.
    pub said: Said,
}

/// What a line of a script is.
#[derive(Clone, Copy, PartialEq, Eq)]
pub(crate) enum Spoken {
    /// A comment, or blank.
    Nothing,
    /// The end of a round.
    Sync,
    /// A line of an actor.
    Line(Line),
}
