/// Whether the subchannels that an edit alters are wanted quiet.
#[derive(Clone, Copy, PartialEq, Eq)]
pub enum Quiet {
    /// One that is busy or status pending is in the way (B1).
    Wanted,
    /// It doesn't matter.
    Whatever,
}
