ghost use Rattle.std.specs.Prelude.{◌≡◌, ◌+◌, length, OnOk};
ghost use Rattle.iocm_core.specs.Accepting.{AcceptsOne, HasRoomForAChange, KeepsTheRest};

use crate::installation::Installation;
use iocm_activate::Done;
use std::alloc::AllocError;

impl Installation {
    /// Makes memory for the acceptance of one more change.
    pub fn make_room(&mut self) -> Result<(), AllocError>
        ensures plant { self.new.plant ≡ self.old.plant }
        ensures stage { self.new.stage ≡ self.old.stage }
        ensures rest { KeepsTheRest self.old self.new }
        ensures room { OnOk result (HasRoomForAChange self.new) }
    {
        self.changes.room()?;
        self.journal.room()
    }

    /// Accepts a change that was done, for which there is memory. It gives the change's number.
    /// Can't run out of memory.
    pub fn accept(&mut self, done: Done) -> u64
        requires { HasRoomForAChange self.old }
        ensures number { result ≡ length self.old.journal.changes + 1 }
        ensures accepted { AcceptsOne done self.old self.new }
        ensures plant { self.new.plant ≡ self.old.plant }
        ensures stage { self.new.stage ≡ self.old.stage }
    {
        let Done {
            inverse,
            effect,
            performed,
        } = done;
        self.changes.push(effect);
        self.journal.accept(inverse, performed)
    }
}
