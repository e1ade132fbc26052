ghost use Rattle.std.specs.Prelude.{◌≡◌};
ghost use Rattle.iocm_model.specs.Operation.Orders as meaning;

use bitflags::Flags;
use iocm_types::{Function, Live, Phase, ScswBits};

/// The status bits that a subchannel shows: none while it is idle; the function's while it is in
/// progress, also while a start is still pending; and `PENDING` beside it while its status is
/// pending.
pub fn bits(live: &Live) -> ScswBits
    ensures { result ≡ meaning.bits_of live.now.phase }
{
    match live.phase {
        Phase::Idle => ScswBits::empty(),
        Phase::StartPending | Phase::StartActive => ScswBits::START,
        Phase::Halt => ScswBits::HALT,
        Phase::Clear => ScswBits::CLEAR,
        Phase::Pending(Function::Start) => ScswBits::PENDING.union(ScswBits::START),
        Phase::Pending(Function::Halt) => ScswBits::PENDING.union(ScswBits::HALT),
        Phase::Pending(Function::Clear) => ScswBits::PENDING.union(ScswBits::CLEAR),
    }
}
