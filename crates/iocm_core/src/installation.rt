ghost use Rattle.std.specs.Prelude.{◌≡◌};
ghost use Rattle.iocm_core.specs.Calls.{call_in};
ghost use Rattle.iocm_core.specs.Running.{Answers, IsRunning};
ghost use Rattle.iocm_core.specs.Told.{GoesOnWith};

use crate::Call;
use iocm_activate::Effects;
use iocm_journal::Journal;
use iocm_plant::Plant;
use iocm_stage::Staged;
use iocm_types::Answer;
use std::alloc::Global;

/// A machine in operation with its journal, what is staged, and what each change wrote. The word is
/// own.
#[derive(Drop)]
pub struct Installation {
    /// The machine in operation, with the edits that were advanced.
    pub plant: Plant,
    /// Its accepted changes.
    pub journal: Journal,
    /// The change in stages, if one was begun.
    pub stage: Option<Staged>,
    /// What each accepted change wrote, in the order of their numbers.
    pub changes: Effects,
}

impl Installation {
    /// Performs a call, and gives its answer.
    pub fn perform(&mut self, alloc: Global, call: &Call) -> Answer
        requires { IsRunning self.old }
        ensures answers { Answers (call_in call.now) result self.old self.new }
        ensures changes { GoesOnWith result self.old.changes.items self.new.changes.items }
    {
        match call {
            Call::Io(subchannel, order) => self.io(subchannel, *order),
            Call::DeviceBegin(subchannel) => self.device_begin(subchannel),
            Call::DeviceEnd(subchannel) => self.device_end(subchannel),
            Call::Activate(tree) => self.activate(alloc, tree),
            Call::Begin(tree) => self.begin(alloc, tree),
            Call::Advance => self.advance(),
            Call::Commit => self.commit(),
            Call::Abort => self.abort(),
            Call::Undo(number) => self.undo(alloc, *number),
            Call::Redo(number) => self.redo(alloc, *number),
            Call::Show => self.show(),
        }
    }
}
