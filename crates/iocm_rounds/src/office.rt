//! The operators and their worker, each in a thread of its own.
ghost use Rattle.std.specs.Prelude.{◌≡◌, [], None, IfSome};
ghost use Rattle.iocm_types.specs.declared.rule.Rule.TheVariants as rules;
ghost use Rattle.iocm_rounds.specs.Rounds.{OfficeDid};
ghost use Rattle.iocm_rounds.specs.Sending.{IsNewQueue, IsSent, OperatorsDid};
ghost use Rattle.iocm_rounds.specs.Working.{WorkerDid};

use crate::gates::{Actor, Door, Gates};
use crate::operators::{Sent, send_in_turn};
use crate::stops::graver;
use crate::worker::{Work, run_worker};
use iocm_board::Identity;
use iocm_core::Call;
use iocm_queue::{Operator, Worker};
use iocm_system::{Caller, Receipt, System};
use iocm_types::Rule;
use std::alloc::Global;
use std::collections::VecDeque;
use std::sync::Wait;
use std::thread::{Threads, join};

/// What the operators and the worker have made.
#[derive(Drop)]
pub struct Office<B: Identity> {
    pub caller: Caller<B>,
    /// The receipts of the first operator's calls that were made.
    pub first: Vec<Receipt>,
    /// Those of the second operator's.
    pub second: Vec<Receipt>,
    /// Why the others were not made, if there are some.
    pub stopped: Option<Rule>,
}

/// What the operators and the worker are to do: from where the worker makes calls, the queue
/// between them, and the calls of each operator.
#[derive(Drop)]
pub(crate) struct OfficeTask<B: Identity> {
    pub caller: Caller<B>,
    pub queue: (Operator<Call>, Operator<Call>, Worker<Call>),
    pub p: VecDeque<Call>,
    pub q: VecDeque<Call>,
}

/// Both operators have sent their calls.
#[derive(Drop)]
struct Operators {
    p: Sent,
    q: Sent,
}

/// Both operators send their calls, at the same time.
fn run_operators<R: Threads + Wait + Sync, G: Gates + Sync>(
    rt: &R,
    gates: &G,
    first: Operator<Call>,
    second: Operator<Call>,
    p: VecDeque<Call>,
    q: VecDeque<Call>,
) -> Operators
    requires first { first.sent ≡ [] }
    requires second { second.sent ≡ [] }
    ensures { OperatorsDid p.items q.items first second result }
{
    // The first of these comes last where no thread can be made.
    let (q, p) = join(
        rt,
        || -> Sent
            requires { second.sent ≡ [] }
            ensures { IsSent q.items second result.done result.left.items }
        {
            let door = Door {
                gates,
                actor: Actor::Q,
            };
            send_in_turn(rt, &door, second, q)
        },
        || -> Sent
            requires { first.sent ≡ [] }
            ensures { IsSent p.items first result.done result.left.items }
        {
            let door = Door {
                gates,
                actor: Actor::P,
            };
            send_in_turn(rt, &door, first, p)
        },
    );
    Operators { p, q }
}

/// The operators send their calls, and the worker makes them, at the same time.
pub(crate) fn run_office<B: Identity + Send + Sync, R: Threads + Wait + Sync, G: Gates + Sync>(
    rt: &R,
    alloc: Global,
    gates: &G,
    system: &System<B>,
    task: OfficeTask<B>,
) -> Office<B>
    requires mine { task.caller.tag ≡ system.now.board.tag }
    requires queue { IsNewQueue task.queue.0 task.queue.1 task.queue.2 }
    ensures { OfficeDid task.p.items task.q.items task.caller result }
{
    let OfficeTask {
        caller: me,
        queue,
        p,
        q,
    } = task;
    let (first, second, worker) = queue;
    // Where no thread can be made, `join` calls its first closure last: so the worker takes what
    // was sent.
    let (worked, sent) = join(
        rt,
        || -> Work<B>
            requires { (me.tag ≡ system.now.board.tag) × (worker.taken ≡ []) }
            ensures { WorkerDid worker me result }
        { run_worker(rt, alloc, gates, system, me, worker) },
        || -> Operators
            requires { (first.sent ≡ []) × (second.sent ≡ []) }
            ensures { OperatorsDid p.items q.items first second result }
        { run_operators(rt, gates, first, second, p, q) },
    );
    let Operators {
        p: Sent { done: p, left },
        q: Sent {
            done: q,
            left: others,
        },
    } = sent;
    let Work {
        caller,
        mut worker,
        first,
        second,
        stopped,
    } = worked;
    worker.settle(p);
    worker.settle(q);
    let gated = gate_met(&left, &others);
    Office {
        caller,
        first,
        second,
        stopped: graver(gated, stopped),
    }
}

/// G1, if a gate has let calls of an operator not through.
fn gate_met(left: &VecDeque<Call>, others: &VecDeque<Call>) -> Option<Rule>
    ensures none { result ≡ None → (left.now.items ≡ []) × (others.now.items ≡ []) }
    ensures some { IfSome result (λ rule. rule ≡ rules.G1) }
{
    if left.is_empty() && others.is_empty() {
        None
    } else {
        Some(Rule::G1)
    }
}
