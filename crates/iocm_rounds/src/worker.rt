//! The worker: it makes the operators' calls, one after the other, as the queue gives them.
ghost use Rattle.std.specs.Prelude.{◌≡◌, ◌<◌, ◌++◌, ◌∷◌, [], MatchOption};
ghost use Rattle.iocm_rounds.specs.Working.{IsKept, WorkGoesOn, WorkerDid};

use crate::gates::{Actor, Gates};
use iocm_board::Identity;
use iocm_core::Call;
use iocm_queue::{Item, Worker};
use iocm_system::{Caller, Receipt, System};
use iocm_types::Rule;
use std::alloc::Global;
use std::sync::Wait;

/// The worker's caller and its end of the queue, and what it has made so far.
#[derive(Drop)]
pub(crate) struct Work<B: Identity> {
    pub caller: Caller<B>,
    pub worker: Worker<Call>,
    /// The receipts of the first operator's calls that were made.
    pub first: Vec<Receipt>,
    /// Those of the second operator's.
    pub second: Vec<Receipt>,
    /// Why no more calls are made, if none are.
    pub stopped: Option<Rule>,
}

/// Takes lines until both end marks were taken, and makes their calls until one can't be made.
pub(crate) fn run_worker<B: Identity, R: Wait, G: Gates>(
    rt: &R,
    alloc: Global,
    gates: &G,
    system: &System<B>,
    me: Caller<B>,
    worker: Worker<Call>,
) -> Work<B>
    requires mine { me.tag ≡ system.now.board.tag }
    requires idle { worker.taken ≡ [] }
    ensures { WorkerDid worker me result }
{
    let mut work = Work {
        caller: me,
        worker,
        first: Vec::new(alloc),
        second: Vec::new(alloc),
        stopped: None,
    };
    for _ in rt.forever() {
        if work.worker.is_over() {
            return work;
        }
        if let Item::Line(number, index, call) = work.worker.next(rt) {
            work.make(rt, gates, system, number, index, call);
        }
    }
    unreachable!()
}

impl<B: Identity> Work<B> {
    /// Makes the call of a line, unless no more calls are made.
    fn make<R: Wait, G: Gates>(
        &mut self,
        rt: &R,
        gates: &G,
        system: &System<B>,
        number: u8,
        index: usize,
        call: Call,
    )
        requires mine { self.old.caller.tag ≡ system.now.board.tag }
        requires operator { number < 2 }
        ensures worker { self.new.worker ≡ self.old.worker }
        ensures goes_on { WorkGoesOn number call self.old self.new }
    {
        if self.stopped.is_some() {
            return;
        }
        if number == 0 {
            let caller = &mut self.caller;
            self.stopped = keep(
                rt,
                gates,
                (Actor::P, index),
                system,
                caller,
                &mut self.first,
                call,
            );
        } else {
            let caller = &mut self.caller;
            self.stopped = keep(
                rt,
                gates,
                (Actor::Q, index),
                system,
                caller,
                &mut self.second,
                call,
            );
        }
    }
}

/// Makes a call, and keeps its receipt; or says why it was not made.
fn keep<B: Identity, R: Wait, G: Gates>(
    rt: &R,
    gates: &G,
    line: (Actor, usize),
    system: &System<B>,
    me: &mut Caller<B>,
    receipts: &mut Vec<Receipt>,
    call: Call,
) -> Option<Rule>
    requires mine { me.old.tag ≡ system.now.board.tag }
    ensures { IsKept call me.old me.new receipts.old.items receipts.new.items result }
{
    if receipts.reserve(1).is_err() {
        return Some(Rule::M1);
    }
    match system.operate(rt, me, call) {
        Ok(receipt) => {
            receipts.push_reserved(receipt);
            gates.after(line.0, line.1);
            None
        }
        Err(back) => Some(back.rule),
    }
}
