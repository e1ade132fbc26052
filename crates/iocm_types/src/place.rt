use crate::{Css, DevNo, SetNo};

/// Where a device has a subchannel number: it has one in each channel subsystem that reaches it.
/// Places are ordered by channel subsystem, set and device number. The word is own.
#[derive(Clone, Copy, PartialEq, Eq, PartialOrd, Ord)]
pub struct Place {
    /// The channel subsystem.
    pub css: Css,
    /// The subchannel set.
    pub set: SetNo,
    /// The device's number.
    pub device: DevNo,
}

/// A subchannel number of a channel subsystem and subchannel set, 0000 to FFFF; it is a device's,
/// or free (Principles of Operation, subchannel number). Cells are ordered by channel subsystem,
/// set and number. The word is own.
#[derive(Clone, Copy, PartialEq, Eq, PartialOrd, Ord)]
pub struct NumberCell {
    /// The channel subsystem.
    pub css: Css,
    /// The subchannel set.
    pub set: SetNo,
    /// The subchannel number, 0000 to FFFF.
    pub number: u16,
}
