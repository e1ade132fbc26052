use iocm_tree::Tree;
use iocm_types::{Order, SubId};

/// What is asked of a machine. A change tree stands in a box, so that a call without one is small
/// in the trace.
#[derive(Drop)]
pub enum Call {
    /// An order of an image on its subchannel.
    Io(SubId, Order),
    /// The device of a subchannel begins what it was started for.
    DeviceBegin(SubId),
    /// The device of a subchannel ends a function that is in progress.
    DeviceEnd(SubId),
    /// A change tree is activated at once, all or none.
    Activate(Box<Tree>),
    /// A change tree is begun, to be done in stages: it is tried whole, and holds the subchannels
    /// that it alters.
    Begin(Box<Tree>),
    /// The next edit of the change in stages is done.
    Advance,
    /// The edits that are left are done, and the change in stages is accepted.
    Commit,
    /// The change in stages is given up, and what was done of it is taken back.
    Abort,
    /// The change of this number is undone.
    Undo(u64),
    /// The change of this number is done again.
    Redo(u64),
    /// The machine shows what it counts.
    Show,
}
