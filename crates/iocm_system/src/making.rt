ghost use Rattle.std.specs.Prelude.{◌≡◌, IfOk, IfErr};
ghost use Rattle.iocm_core.specs.declared.call.Call.TheVariants as calls;
ghost use Rattle.iocm_system.specs.Calling.{IsHandedBack, IsMade};

use crate::caller::Caller;
use crate::receipt::{Back, Receipt};
use crate::system::System;
use iocm_board::Identity;
use iocm_core::Call;
use iocm_types::{Order, SubId};
use std::sync::Wait;

// The calls. Each takes the lock, and gives a receipt; X1 and O3 hand the call back, X1 first.
impl<B: Identity> System<B> {
    /// An image gives an order to one of its subchannels.
    pub fn io<R: Wait>(
        &self,
        rt: &R,
        me: &mut Caller<B>,
        subchannel: SubId,
        order: Order,
    ) -> Result<Receipt, Back>
        requires mine { me.old.tag ≡ self.now.board.tag }
        ensures made { IfOk result (λ r. IsMade (calls.Io subchannel order) me.old r me.new) }
        ensures back { IfErr result (λ b. IsHandedBack (calls.Io subchannel order) me.old b me.new) }
    {
        self.operate(rt, me, Call::Io(subchannel, order))
    }

    /// The device of a subchannel begins what it was started for.
    pub fn device_begin<R: Wait>(
        &self,
        rt: &R,
        me: &mut Caller<B>,
        subchannel: SubId,
    ) -> Result<Receipt, Back>
        requires mine { me.old.tag ≡ self.now.board.tag }
        ensures made { IfOk result (λ r. IsMade (calls.DeviceBegin subchannel) me.old r me.new) }
        ensures back { IfErr result (λ b. IsHandedBack (calls.DeviceBegin subchannel) me.old b me.new) }
    {
        self.operate(rt, me, Call::DeviceBegin(subchannel))
    }

    /// The device of a subchannel ends a function that is in progress.
    pub fn device_end<R: Wait>(
        &self,
        rt: &R,
        me: &mut Caller<B>,
        subchannel: SubId,
    ) -> Result<Receipt, Back>
        requires mine { me.old.tag ≡ self.now.board.tag }
        ensures made { IfOk result (λ r. IsMade (calls.DeviceEnd subchannel) me.old r me.new) }
        ensures back { IfErr result (λ b. IsHandedBack (calls.DeviceEnd subchannel) me.old b me.new) }
    {
        self.operate(rt, me, Call::DeviceEnd(subchannel))
    }

    /// Any call, as those of an operator. The receipt has its place in the trace, which is at least
    /// the number of calls that the caller had seen; the caller has this receipt more, and has seen
    /// the call.
    ///
    /// X1: what lies under the lock is not of this system; the caller is as before. O3: the trace
    /// has no room; the caller has then seen as many calls as there is room for, and has no new
    /// receipt. Either hands the call back.
    pub fn operate<R: Wait>(&self, rt: &R, me: &mut Caller<B>, call: Call) -> Result<Receipt, Back>
        requires mine { me.old.tag ≡ self.now.board.tag }
        ensures made { IfOk result (λ r. IsMade call me.old r me.new) }
        ensures back { IfErr result (λ b. IsHandedBack call me.old b me.new) }
    {
        self.desk
            .lock(rt)
            .make(self.alloc, &self.board, &mut me.seat, call)
    }
}
