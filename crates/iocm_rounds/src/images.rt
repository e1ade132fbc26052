//! The images: each makes its calls from a thread of its own.
ghost use Rattle.std.specs.Prelude.{◌≡◌};
ghost use Rattle.iocm_rounds.specs.Rounds.{ImageDid};

use crate::gates::{Actor, Door, Gates};
use iocm_board::Identity;
use iocm_core::Call;
use iocm_system::{Caller, Ran, Receipt, System, Turn, in_turn};
use iocm_types::Rule;
use std::collections::VecDeque;
use std::sync::Wait;
use std::thread::{Threads, join};

/// What an image has made of its calls.
#[derive(Drop)]
pub struct Image<B: Identity> {
    pub caller: Caller<B>,
    /// The receipts of the calls that were made.
    pub receipts: Vec<Receipt>,
    /// Why the others were not made, if there are some.
    pub stopped: Option<Rule>,
}

/// What an image is to do: the calls that it is to make, and from where.
#[derive(Drop)]
pub(crate) struct Task<B: Identity> {
    pub caller: Caller<B>,
    pub calls: VecDeque<Call>,
}

/// What both are to do.
#[derive(Drop)]
pub(crate) struct Tasks<B: Identity> {
    pub a: Task<B>,
    pub b: Task<B>,
}

/// An image makes its calls.
fn run_image<B: Identity, R: Wait, G: Gates>(
    rt: &R,
    gates: &G,
    actor: Actor,
    system: &System<B>,
    task: Task<B>,
) -> Image<B>
    requires mine { task.caller.tag ≡ system.now.board.tag }
    ensures { ImageDid task.calls.items task.caller result }
{
    let door = Door { gates, actor };
    let Task { caller: me, calls } = task;
    let Turn { caller, ran } = in_turn(rt, &door, system, me, calls);
    let Ran {
        receipts,
        back,
        left: _,
    } = ran;
    let stopped = match back {
        Some(back) => Some(back.rule),
        None => None,
    };
    Image {
        caller,
        receipts,
        stopped,
    }
}

/// Both images.
#[derive(Drop)]
pub(crate) struct Images<B: Identity> {
    pub a: Image<B>,
    pub b: Image<B>,
}

/// Both images make their calls, at the same time.
pub(crate) fn run_images<B: Identity + Send + Sync, R: Threads + Wait + Sync, G: Gates + Sync>(
    rt: &R,
    gates: &G,
    system: &System<B>,
    tasks: Tasks<B>,
) -> Images<B>
    requires a { tasks.a.caller.tag ≡ system.now.board.tag }
    requires b { tasks.b.caller.tag ≡ system.now.board.tag }
    ensures a { ImageDid tasks.a.calls.items tasks.a.caller result.a }
    ensures b { ImageDid tasks.b.calls.items tasks.b.caller result.b }
{
    let Tasks { a, b } = tasks;
    // The first of these comes last where no thread can be made.
    let (b, a) = join(
        rt,
        || -> Image<B>
            requires { b.caller.tag ≡ system.now.board.tag }
            ensures { ImageDid b.calls.items b.caller result }
        { run_image(rt, gates, Actor::B, system, b) },
        || -> Image<B>
            requires { a.caller.tag ≡ system.now.board.tag }
            ensures { ImageDid a.calls.items a.caller result }
        { run_image(rt, gates, Actor::A, system, a) },
    );
    Images { a, b }
}
