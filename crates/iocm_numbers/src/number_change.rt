use iocm_types::{DevNo, NumberCell};

/// That a change of the configuration gave a number cell to another device, took it away, or gave
/// it out. The word is own.
#[derive(Clone, Copy, PartialEq, Eq)]
pub struct NumberChange {
    /// The number cell.
    pub cell: NumberCell,
    /// The device that had the number before the change, if one had it.
    pub before: Option<DevNo>,
    /// The device that has it afterwards, if one has it.
    pub after: Option<DevNo>,
}
