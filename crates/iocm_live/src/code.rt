ghost use Rattle.std.specs.Prelude.{◌≡◌};
ghost use Rattle.iocm_model.specs.Operation.Orders as meaning;

use iocm_types::{Live, Mask, Order, Phase, View};

/// Whether a function is in progress.
pub(crate) fn is_busy(phase: Phase) -> bool
    ensures { result ≡ meaning.is_busy phase }
{
    matches!(
        phase,
        Phase::StartPending | Phase::StartActive | Phase::Halt | Phase::Clear
    )
}

/// Whether status is pending.
fn is_pending(phase: Phase) -> bool
    ensures { result ≡ meaning.is_pending phase }
{
    matches!(phase, Phase::Pending(_))
}

/// Condition code 3: the subchannel isn't enabled, or START finds no path that is available and in
/// the mask.
fn is_not_operational(order: &Order, view: &View, live: &Live) -> bool
    ensures { result ≡ meaning.is_not_operational order.now view.now live.now }
{
    match order {
        Order::Start => !live.enabled || live.lpm.common(view.pam) == Mask::NONE,
        Order::Halt | Order::Clear | Order::Cancel | Order::Test => !live.enabled,
        Order::Modify(_) | Order::Store => false,
    }
}

/// Condition code 1: status is pending; for TEST, that none is.
fn is_status_in_the_way(order: &Order, phase: Phase) -> bool
    ensures { result ≡ meaning.is_status_in_the_way order.now phase }
{
    match order {
        Order::Start | Order::Halt | Order::Cancel | Order::Modify(_) => is_pending(phase),
        Order::Test => !is_pending(phase),
        Order::Clear | Order::Store => false,
    }
}

/// Condition code 2: a function is in progress; for HALT a halt or a clear; for CANCEL, that no
/// start is pending.
fn is_phase_in_the_way(order: &Order, phase: Phase) -> bool
    ensures { result ≡ meaning.is_phase_in_the_way order.now phase }
{
    match order {
        Order::Start | Order::Modify(_) => is_busy(phase),
        Order::Halt => matches!(phase, Phase::Halt | Phase::Clear),
        Order::Cancel => !matches!(phase, Phase::StartPending),
        Order::Clear | Order::Test | Order::Store => false,
    }
}

/// The condition code of an order: 3, 1, 2 or 0, tried in this order.
pub(crate) fn code_of(order: &Order, view: &View, live: &Live) -> u8
    ensures { result ≡ meaning.code_of order.now view.now live.now }
{
    if is_not_operational(order, view, live) {
        3
    } else if is_status_in_the_way(order, live.phase) {
        1
    } else if is_phase_in_the_way(order, live.phase) {
        2
    } else {
        0
    }
}
