use crate::{Mask, Parm};

/// A function that a subchannel performs (Principles of Operation, basic I/O functions).
#[derive(Clone, Copy, PartialEq, Eq)]
pub enum Function {
    Start,
    Halt,
    Clear,
}

/// Where a subchannel is in its work. The phases are own; the Principles of Operation have
/// function, activity and status control bits for them. In the four between `Idle` and `Pending`
/// the subchannel is busy.
#[derive(Clone, Copy, PartialEq, Eq)]
pub enum Phase {
    /// Nothing is in progress or pending.
    Idle,
    /// The start function is accepted, and the device hasn't begun yet.
    StartPending,
    /// The start function is in progress at the device.
    StartActive,
    /// The halt function is in progress.
    Halt,
    /// The clear function is in progress.
    Clear,
    /// The function has ended, and its status is pending.
    Pending(Function),
}

/// What a subchannel remembers while it is there: its interruption parameter, whether it is enabled,
/// its logical-path mask, and its phase (Principles of Operation, path-management-control word).
/// None of them has room before it that holds nothing.
#[derive(Clone, Copy, PartialEq, Eq)]
pub struct Live {
    pub parm: Parm,
    pub enabled: bool,
    pub lpm: Mask,
    pub phase: Phase,
}
