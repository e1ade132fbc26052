ghost use Rattle.std.specs.Prelude.{◌≡◌};
ghost use Rattle.iocm_model.specs.Operation.Step as step;
ghost use Rattle.iocm_model.specs.Operation.Step.{order_answer, begins_function, ends_function};
ghost use Rattle.iocm_model.specs.Operation.Step.{subchannel_in, after_step};
ghost use Rattle.iocm_plant.specs.Operating.{KeepsRoom};

use crate::Plant;
use iocm_live as live;
use iocm_types::{Io, Order, SubId};

impl Plant {
    /// An order of an image on its subchannel: condition code 3 where the subchannel isn't there,
    /// else as its view and its live record answer. Can't run out of memory.
    pub fn step(&mut self, subchannel: SubId, order: Order) -> Io
        ensures answer { result ≡ order_answer order (subchannel_in self.old.state subchannel) }
        ensures state { self.new.state ≡ after_step subchannel (step.order order) self.old.state }
        ensures room { self.new.room ≡ self.old.room }
        ensures kept { KeepsRoom self.old.room self.new.room }
    {
        let Some(seat) = self.seats.get_mut(&subchannel) else {
            return Io::Code(3);
        };
        let mut record = seat.live();
        let answer = live::order(&mut record, &seat.view(), order);
        seat.set_live(record);
        answer
    }

    /// The device of a subchannel begins what it was started for: a start that is pending becomes
    /// active. Else nothing changes, as where the subchannel isn't there. The answer is whether it
    /// did. Can't run out of memory.
    pub fn device_begin(&mut self, subchannel: SubId) -> bool
        ensures answer { result ≡ begins_function (subchannel_in self.old.state subchannel) }
        ensures state { self.new.state ≡ after_step subchannel step.device_begin self.old.state }
        ensures room { self.new.room ≡ self.old.room }
        ensures kept { KeepsRoom self.old.room self.new.room }
    {
        let Some(seat) = self.seats.get_mut(&subchannel) else {
            return false;
        };
        let mut record = seat.live();
        let answer = live::device_begin(&mut record);
        seat.set_live(record);
        answer
    }

    /// The device of a subchannel ends a function that is in progress: its status is pending then.
    /// Else nothing changes, as where the subchannel isn't there. The answer is whether it did.
    /// Can't run out of memory.
    pub fn device_end(&mut self, subchannel: SubId) -> bool
        ensures answer { result ≡ ends_function (subchannel_in self.old.state subchannel) }
        ensures state { self.new.state ≡ after_step subchannel step.device_end self.old.state }
        ensures room { self.new.room ≡ self.old.room }
        ensures kept { KeepsRoom self.old.room self.new.room }
    {
        let Some(seat) = self.seats.get_mut(&subchannel) else {
            return false;
        };
        let mut record = seat.live();
        let answer = live::device_end(&mut record);
        seat.set_live(record);
        answer
    }
}
