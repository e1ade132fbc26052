//! The operators: each sends its calls to the worker, in order.
ghost use Rattle.std.specs.Prelude.{◌≡◌, []};
ghost use Rattle.iocm_rounds.specs.Sending.{IsSent};

use iocm_core::Call;
use iocm_queue::{Finished, Operator, end, send};
use iocm_system::Gate;
use std::collections::VecDeque;
use std::sync::Wait;

/// What is left of an operator that has sent its calls.
#[derive(Drop)]
pub(crate) struct Sent {
    /// It has sent its end mark.
    pub done: Finished<Call>,
    /// The calls that the gate did not let through: it stopped at the first of them.
    pub left: VecDeque<Call>,
}

/// Sends calls one after the other, until none is left or the gate stops one; and then the end
/// mark.
pub(crate) fn send_in_turn<R: Wait, G: Gate>(
    rt: &R,
    gate: &G,
    mut operator: Operator<Call>,
    mut calls: VecDeque<Call>,
) -> Sent
    requires idle { operator.sent ≡ [] }
    ensures { IsSent calls.items operator result.done result.left.items }
{
    let all = calls.len();
    while !calls.is_empty() {
        let index = all - calls.len();
        if !gate.before(index) {
            let done = end(rt, operator);
            return Sent { done, left: calls };
        }
        if let Some(call) = calls.pop_front() {
            send(rt, &mut operator, call);
        }
    }
    let done = end(rt, operator);
    Sent { done, left: calls }
}
