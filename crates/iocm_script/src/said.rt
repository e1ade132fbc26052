use iocm_types::{Order, SubId};

/// The threads of images: each gives orders to subchannels, and tells what their devices do.
#[derive(Clone, Copy, PartialEq, Eq)]
pub enum ImageThread {
    A,
    B,
}

/// The threads of operators: each changes the machine.
#[derive(Clone, Copy, PartialEq, Eq)]
pub enum OperatorThread {
    P,
    Q,
}

/// Who says something: the thread of an image, or that of an operator.
#[derive(Clone, Copy, PartialEq, Eq)]
pub(crate) enum Actor {
    Image(ImageThread),
    Operator(OperatorThread),
}

/// What the thread of an image says. Own, but for the orders.
#[derive(Clone, Copy, PartialEq, Eq)]
pub enum ImageCommand {
    /// An order to a subchannel: `start`, `halt`, `clear`, `cancel`, `test`, `store` and `modify`.
    Io(SubId, Order),
    /// The device of a subchannel begins what it was started for: `active`.
    DeviceBegin(SubId),
    /// The device of a subchannel ends a function that is in progress: `end`.
    DeviceEnd(SubId),
}

/// What the thread of an operator says.
#[derive(Clone, Copy, PartialEq, Eq)]
pub enum OperatorCommand {
    /// The change deck of this number is activated at once. Those of the command line count from 1.
    Activate(u64),
    /// The change deck of this number is begun, to be done in stages.
    Begin(u64),
    /// The next edit of the change in stages is done.
    Advance,
    /// The edits that are left are done, and the change in stages is accepted.
    Commit,
    /// The change in stages is given up.
    Abort,
    /// The change of this number is undone: 1 or more, whether or not there is such a change.
    Undo(u64),
    /// The change of this number is done again: 1 or more, whether or not there is such a change.
    Redo(u64),
    /// The machine shows what it counts.
    Show,
}

/// Who says what.
#[derive(Clone, Copy, PartialEq, Eq)]
pub enum Said {
    /// The thread of an image says this.
    Image(ImageThread, ImageCommand),
    /// The thread of an operator says this.
    Operator(OperatorThread, OperatorCommand),
}
