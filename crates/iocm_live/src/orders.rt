ghost use Rattle.std.specs.Prelude.{◌≡◌};
ghost use Rattle.iocm_model.specs.Operation.Orders as meaning;

use crate::code::code_of;
use crate::status::bits;
use iocm_types::{Io, Live, Mask, Order, Parm, Phase, Stored, View};

/// A live record that nobody has touched: not enabled, all installed paths in the logical-path
/// mask, parameter 0, idle.
pub fn fresh(pim: Mask) -> Live
    ensures { result ≡ meaning.fresh pim }
{
    Live {
        enabled: false,
        lpm: pim,
        parm: Parm::new(0),
        phase: Phase::Idle,
    }
}

/// What an order with condition code 0 answers.
fn answer_if_accepted(order: &Order, view: &View, live: &Live) -> Io
    ensures { result ≡ meaning.answer_if_accepted order.now view.now live.now }
{
    match order {
        Order::Test => Io::Status(bits(live)),
        Order::Store => Io::Stored(Stored {
            device: view.device,
            pim: view.pim,
            pam: view.pam,
            lpm: live.lpm,
            enabled: live.enabled,
            parm: live.parm.number(),
            bits: bits(live),
        }),
        Order::Start | Order::Halt | Order::Clear | Order::Cancel | Order::Modify(_) => Io::Code(0),
    }
}

/// What it leaves.
fn perform(order: &Order, live: &mut Live)
    ensures { live.new ≡ meaning.live_if_accepted order.now live.old }
{
    match order {
        Order::Start => live.phase = Phase::StartPending,
        Order::Halt => live.phase = Phase::Halt,
        Order::Clear => live.phase = Phase::Clear,
        Order::Cancel | Order::Test => live.phase = Phase::Idle,
        Order::Modify(setting) => {
            live.enabled = setting.enabled;
            live.lpm = setting.lpm;
            live.parm = Parm::new(setting.parm);
        }
        Order::Store => {}
    }
}

/// An order of an image on its subchannel, where the image has this view of the device. Its
/// condition code is 3 where the subchannel isn't enabled (but for MODIFY and STORE), or START
/// finds no path that is both available and in the mask; 1 where status is in the way; 2 where a
/// function is; else 0, and then it is performed: TEST answers the status that was pending, STORE
/// what the subchannel is. With another code nothing changes.
///
/// Promise: an order is answered by the table of orders, and only code 0 changes anything.
pub fn order(live: &mut Live, view: &View, order: Order) -> Io
    ensures answer { result ≡ meaning.answer_of order view.now live.old }
    ensures left { live.new ≡ meaning.live_after order view.now live.old }
{
    let code = code_of(&order, view, live);
    if code != 0 {
        return Io::Code(code);
    }
    let answer = answer_if_accepted(&order, view, live);
    perform(&order, live);
    answer
}
