use crate::{DevNo, Mask, ScswBits};

/// An order of an image on one of its subchannels (Principles of Operation, chapter on I/O
/// instructions).
#[derive(Clone, Copy, PartialEq, Eq)]
pub enum Order {
    /// START SUBCHANNEL.
    Start,
    /// HALT SUBCHANNEL.
    Halt,
    /// CLEAR SUBCHANNEL.
    Clear,
    /// CANCEL SUBCHANNEL: takes back a start that is still pending.
    Cancel,
    /// TEST SUBCHANNEL.
    Test,
    /// STORE SUBCHANNEL.
    Store,
    /// MODIFY SUBCHANNEL, with the enabled bit, the logical-path mask and the interruption
    /// parameter to be set.
    Modify(Setting),
}

/// What MODIFY SUBCHANNEL sets.
#[derive(Clone, Copy, PartialEq, Eq)]
pub struct Setting {
    pub enabled: bool,
    pub lpm: Mask,
    pub parm: u32,
}

/// What STORE SUBCHANNEL gives.
#[derive(Clone, Copy, PartialEq, Eq)]
pub struct Stored {
    pub device: DevNo,
    pub pim: Mask,
    pub pam: Mask,
    pub lpm: Mask,
    pub enabled: bool,
    pub parm: u32,
    pub bits: ScswBits,
}

/// The answer to an order.
#[derive(Clone, Copy, PartialEq, Eq)]
pub enum Io {
    /// A condition code, 0 to 3.
    Code(u8),
    /// TEST SUBCHANNEL with condition code 0: the status that was pending.
    Status(ScswBits),
    /// STORE SUBCHANNEL with condition code 0.
    Stored(Stored),
}
