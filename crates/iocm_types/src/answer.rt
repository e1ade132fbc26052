use crate::{Io, Refused};

/// What a machine counts: its records, its subchannels, the changes that stand, and those that are
/// undone.
#[derive(Clone, Copy, PartialEq, Eq)]
pub struct Counts {
    pub records: u64,
    pub subchannels: u64,
    pub standing: u64,
    pub undone: u64,
}

/// The answer to a call. Own, but for those to orders.
#[derive(Clone, Copy, PartialEq, Eq)]
pub enum Answer {
    /// To an order.
    Io(Io),
    /// To a device begin: whether a start was pending, which is active now.
    Begun(bool),
    /// To a device end: whether a function was in progress, which it ended.
    Ended(bool),
    /// To an order, a device begin or a device end at a subchannel that the change being tried
    /// alters: it was not performed.
    Held,
    /// A change was accepted, with this number.
    Changed(u64),
    /// A change is being tried, with so many edits.
    Staged(u64),
    /// So many edits of the change that is being tried are left.
    Left(u64),
    /// The change that was being tried is given up.
    Aborted,
    /// The change of this number was undone.
    Undone(u64),
    /// The change of this number was redone.
    Redone(u64),
    /// What the machine counts.
    Shown(Counts),
    /// The call was refused, and changed nothing.
    Refused(Refused),
}
