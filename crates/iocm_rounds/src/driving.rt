ghost use Rattle.std.specs.Prelude.{◌≡◌, ◌+◌, ◌≤◌, List, length};
ghost use Rattle.iocm_core.specs.declared.call.Call as its_call;
ghost use Rattle.iocm_rounds.specs.Rounds.{ImageDid, OfficeDid};
ghost use Rattle.iocm_rounds.specs.Sending.{IsNewQueue};
ghost use Rattle.iocm_rounds.specs.Stops.{graver};

use crate::gates::Gates;
use crate::images::{Image, Images, Task, Tasks, run_images};
use crate::office::{Office, OfficeTask, run_office};
use crate::round::{Round, Seats};
use crate::stops::graver;
use iocm_board::Identity;
use iocm_core::Call;
use iocm_queue::{Operator, Worker, queue};
use iocm_system::System;
use iocm_types::Rule;
use std::alloc::Global;
use std::sync::Wait;
use std::thread::{Threads, join};

/// A round that is over: what each actor has made of its calls.
#[derive(Drop)]
pub struct Driven<B: Identity> {
    /// The first image.
    pub a: Image<B>,
    /// The second image.
    pub b: Image<B>,
    /// The operators, and the worker.
    pub office: Office<B>,
}

impl<B: Identity> Driven<B> {
    /// Why some calls were not made, if some were not: the first that is met of M1, no memory; G1,
    /// a gate; O3, the trace is full; or X1, the lock is of another system.
    pub fn stopped(&self) -> Option<Rule>
        ensures { result ≡ graver (graver self.now.a.stopped self.now.b.stopped) self.now.office.stopped }
    {
        graver(graver(self.a.stopped, self.b.stopped), self.office.stopped)
    }
}

/// Runs a round: both images make their calls, both operators send theirs, and the worker makes
/// these, all at the same time, each in a thread of its own. Where a thread can't be made, its part
/// runs on the calling thread: images first, then the operators, and the worker last.
///
/// Calls that were made stay made, whatever stops the round. M1 before all others: there is no
/// memory for the queue, and nothing is made.
///
/// Promise: in a round each actor's calls are made in its order, each with its receipt.
pub fn drive<B: Identity + Send + Sync, R: Threads + Wait + Sync, G: Gates + Sync>(
    rt: &R,
    alloc: Global,
    gates: &G,
    system: &System<B>,
    seats: Seats<B>,
    round: Round,
) -> Driven<B>
    requires a { seats.a.tag ≡ system.now.board.tag }
    requires b { seats.b.tag ≡ system.now.board.tag }
    requires worker { seats.worker.tag ≡ system.now.board.tag }
    requires few { length round.p.items + length round.q.items ≤ 14 }
    ensures a { ImageDid round.a.items seats.a result.a }
    ensures b { ImageDid round.b.items seats.b result.b }
    ensures office { OfficeDid round.p.items round.q.items seats.worker result.office }
{
    match queue(alloc) {
        Ok(queue) => drive_by(rt, alloc, gates, system, queue, seats, round),
        Err(_) => not_driven(alloc, seats),
    }
}

/// A round of which nothing is made, for lack of memory.
fn not_driven<B: Identity>(alloc: Global, seats: Seats<B>) -> Driven<B>
    ensures a { (calls : List its_call.Call) → ImageDid calls seats.a result.a }
    ensures b { (calls : List its_call.Call) → ImageDid calls seats.b result.b }
    ensures office { (p q : List its_call.Call) → OfficeDid p q seats.worker result.office }
{
    let Seats { a, b, worker } = seats;
    Driven {
        a: Image {
            caller: a,
            receipts: Vec::new(alloc),
            stopped: Some(Rule::M1),
        },
        b: Image {
            caller: b,
            receipts: Vec::new(alloc),
            stopped: Some(Rule::M1),
        },
        office: Office {
            caller: worker,
            first: Vec::new(alloc),
            second: Vec::new(alloc),
            stopped: Some(Rule::M1),
        },
    }
}

/// The same with a queue.
fn drive_by<B: Identity + Send + Sync, R: Threads + Wait + Sync, G: Gates + Sync>(
    rt: &R,
    alloc: Global,
    gates: &G,
    system: &System<B>,
    queue: (Operator<Call>, Operator<Call>, Worker<Call>),
    seats: Seats<B>,
    round: Round,
) -> Driven<B>
    requires a { seats.a.tag ≡ system.now.board.tag }
    requires b { seats.b.tag ≡ system.now.board.tag }
    requires worker { seats.worker.tag ≡ system.now.board.tag }
    requires queue { IsNewQueue queue.0 queue.1 queue.2 }
    ensures a { ImageDid round.a.items seats.a result.a }
    ensures b { ImageDid round.b.items seats.b result.b }
    ensures office { OfficeDid round.p.items round.q.items seats.worker result.office }
{
    let Seats {
        a: me,
        b: other,
        worker: clerk,
    } = seats;
    let Round { a, b, p, q } = round;
    let tasks = Tasks {
        a: Task {
            caller: me,
            calls: a,
        },
        b: Task {
            caller: other,
            calls: b,
        },
    };
    let task = OfficeTask {
        caller: clerk,
        queue,
        p,
        q,
    };
    // The first of these comes last where no thread can be made.
    let (office, images) = join(
        rt,
        || -> Office<B>
            requires { (task.caller.tag ≡ system.now.board.tag)
                × IsNewQueue task.queue.0 task.queue.1 task.queue.2 }
            ensures { OfficeDid task.p.items task.q.items task.caller result }
        { run_office(rt, alloc, gates, system, task) },
        || -> Images<B>
            requires { (tasks.a.caller.tag ≡ system.now.board.tag) × (tasks.b.caller.tag ≡ system.now.board.tag) }
            ensures { ImageDid tasks.a.calls.items tasks.a.caller result.a
                × ImageDid tasks.b.calls.items tasks.b.caller result.b }
        { run_images(rt, gates, system, tasks) },
    );
    let Images { a, b } = images;
    Driven { a, b, office }
}
