ghost use Rattle.std.specs.Prelude.{◌≡◌};
ghost use Rattle.iocm_system.specs.Asking.{asked_by};

use iocm_core::Call;
use iocm_types::{Order, SubId};

/// What was asked of a machine, without the change tree that a call may have.
#[derive(Clone, Copy, PartialEq, Eq)]
pub enum Asked {
    /// An order of an image on its subchannel.
    Io(SubId, Order),
    /// The device of a subchannel begins what it was started for.
    DeviceBegin(SubId),
    /// The device of a subchannel ends a function that is in progress.
    DeviceEnd(SubId),
    /// A change tree is activated at once.
    Activate,
    /// A change tree is begun, to be done in stages.
    Begin,
    /// The next edit of the change in stages is done.
    Advance,
    /// The change in stages is done to its end, and accepted.
    Commit,
    /// The change in stages is given up.
    Abort,
    /// The change of this number is undone.
    Undo(u64),
    /// The change of this number is done again.
    Redo(u64),
    /// The machine shows what it counts.
    Show,
}

impl Asked {
    /// What a call asks.
    pub fn by(call: &Call) -> Asked
        ensures { result ≡ asked_by call.now }
    {
        match call {
            Call::Io(subchannel, order) => Asked::Io(*subchannel, *order),
            Call::DeviceBegin(subchannel) => Asked::DeviceBegin(*subchannel),
            Call::DeviceEnd(subchannel) => Asked::DeviceEnd(*subchannel),
            Call::Activate(_) => Asked::Activate,
            Call::Begin(_) => Asked::Begin,
            Call::Advance => Asked::Advance,
            Call::Commit => Asked::Commit,
            Call::Abort => Asked::Abort,
            Call::Undo(number) => Asked::Undo(*number),
            Call::Redo(number) => Asked::Redo(*number),
            Call::Show => Asked::Show,
        }
    }
}
