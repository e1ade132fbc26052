//! One round, run by the one caller that there is between rounds.
ghost use Rattle.std.specs.Prelude.{◌≡◌, ◌+◌, ◌≤◌, ◌<◌, true, length};
ghost use Rattle.std.specs.List.{AllByRecursion};
ghost use Rattle.iocm_board.specs.Names.{is_whole};
ghost use Rattle.iocm_board.specs.declared.view.Made as its_made;
ghost use Rattle.iocm_operation.specs.Running.{RoundIsRan};

use iocm_board::Identity;
use iocm_rounds::{AllOpen, Driven, Image, Office, Round, Seats, drive};
use iocm_system::{Caller, Receipt, System};
use iocm_types::Rule;
use std::alloc::Global;
use std::sync::Wait;
use std::thread::Threads;

/// What came of a round.
#[derive(Drop)]
pub(crate) struct Ran<B: Identity> {
    pub caller: Caller<B>,
    pub p: Vec<Receipt>,
    pub q: Vec<Receipt>,
    pub a: Vec<Receipt>,
    pub b: Vec<Receipt>,
    pub stopped: Option<Rule>,
}

/// Runs a round: the caller splits off one for the second image and one for the worker, and they
/// are joined to it again.
pub(crate) fn run_round<B: Identity + Send + Sync, R: Threads + Wait + Sync>(
    rt: &R,
    alloc: Global,
    system: &System<B>,
    mut me: Caller<B>,
    round: Round,
) -> Ran<B>
    requires mine { me.tag ≡ system.now.board.tag }
    requires whole { is_whole me.names ≡ true }
    requires below { AllByRecursion (λ (m : its_made.Made). m.number < me.seen) me.receipts }
    requires few { length round.p.items + length round.q.items ≤ 14 }
    ensures { RoundIsRan round me result }
{
    let b = system.split(&mut me);
    let worker = system.split(&mut me);
    let seats = Seats { a: me, b, worker };
    let driven = drive(rt, alloc, &AllOpen, system, seats, round);
    let stopped = driven.stopped();
    let Driven { a, b, office } = driven;
    let Image {
        caller: me,
        receipts: a,
        stopped: _,
    } = a;
    let Image {
        caller: other,
        receipts: b,
        stopped: _,
    } = b;
    let Office {
        caller: worker,
        first: p,
        second: q,
        stopped: _,
    } = office;
    let me = system.join(me, other);
    let caller = system.join(me, worker);
    Ran {
        caller,
        p,
        q,
        a,
        b,
        stopped,
    }
}
