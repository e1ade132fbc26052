ghost use Rattle.std.specs.Prelude.{◌≡◌, [], IfOk};

use crate::message::Message;
use crate::operator::Operator;
use crate::part::{Hires, Law, Part};
use crate::worker::{Progress, Worker};
use crossbeam_channel::bounded_with;
use std::alloc::{AllocError, Global};

/// How many messages the channel has places for.
const PLACES: usize = 16;

/// A queue: operators 0 and 1, which have sent nothing, and the worker, which has taken nothing.
/// M1, the caller's word for `AllocError`: memory ran out.
pub fn queue<T: Drop>(alloc: Global) -> Result<(Operator<T>, Operator<T>, Worker<T>), AllocError>
    ensures first { IfOk result (λ q. q.0 ≡ record { channel = q.2.channel; number = 0; sent = [] }) }
    ensures second { IfOk result (λ q. q.1 ≡ record { channel = q.2.channel; number = 1; sent = [] }) }
    ensures worker { IfOk result (λ q. q.2.taken ≡ []) }
{
    let (sender, receiver, mut pass) = bounded_with::<Message<T>, Part<T>, Law, Global>(
        alloc, PLACES,
    )?;
    let first = sender.try_clone()?;
    let second = sender.try_clone()?;
    let first = Operator {
        pass: sender.another::<Hires>(&mut pass),
        sender: first,
        number: 0,
    };
    let second = Operator {
        pass: sender.another::<Hires>(&mut pass),
        sender: second,
        number: 1,
    };
    let none = Progress {
        lines: 0,
        over: false,
    };
    let worker = Worker {
        sender,
        receiver,
        pass,
        progress: [none; 2],
    };
    Ok((first, second, worker))
}
