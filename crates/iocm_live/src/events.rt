ghost use Rattle.std.specs.Prelude.{◌≡◌};
ghost use Rattle.iocm_model.specs.Operation.Orders as meaning;

use crate::code::is_busy;
use iocm_types::{Function, Live, Phase};

/// The device begins what it was started for: a pending start becomes active. Else nothing changes.
/// The answer is whether it did.
pub fn device_begin(live: &mut Live) -> bool
    ensures answer { result ≡ meaning.is_start_pending live.old.phase }
    ensures left { live.new ≡ meaning.live_after_device_begin live.old }
{
    let begins = matches!(live.phase, Phase::StartPending);
    if begins {
        live.phase = Phase::StartActive;
    }
    begins
}

/// The phase behind a device end.
fn ended(phase: Phase) -> Phase
    ensures { result ≡ meaning.phase_after_device_end phase }
{
    match phase {
        Phase::StartPending | Phase::StartActive => Phase::Pending(Function::Start),
        Phase::Halt => Phase::Pending(Function::Halt),
        Phase::Clear => Phase::Pending(Function::Clear),
        Phase::Idle | Phase::Pending(_) => phase,
    }
}

/// The device ends a function that is in progress, a start that is still pending too: its status is
/// pending then. Else nothing changes. The answer is whether it did.
pub fn device_end(live: &mut Live) -> bool
    ensures answer { result ≡ meaning.is_busy live.old.phase }
    ensures left { live.new ≡ meaning.live_after_device_end live.old }
{
    let ends = is_busy(live.phase);
    live.phase = ended(live.phase);
    ends
}
