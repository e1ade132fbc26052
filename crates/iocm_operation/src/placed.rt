/// A line of a script, with the place of its call in the trace.
#[derive(Clone, Copy)]
pub(crate) struct Placed {
    /// The number of the line.
    pub line: usize,
    /// The place of its call, from 0.
    pub number: u64,
}
