/// A range of unit addresses: the first, and how many there are, 1 to 256 (IOCP User's Guide,
/// CNTLUNIT statement).
#[derive(Clone, Copy, PartialEq, Eq)]
pub struct UnitRange {
    /// The first unit address, 00 to FF.
    pub start: u8,
    /// How many addresses there are, 1 to 256, in decimal where they are written.
    pub count: u16,
}
