ghost use Rattle.std.specs.Prelude.{◌≡◌, ◌++◌, [], map, IfOk};
ghost use Rattle.iocm_queue.specs.Ends.{sends_lines};
ghost use Rattle.iocm_queue.specs.Hauls.{IsHaul};
ghost use Rattle.iocm_queue.specs.Taken.{lines_of, message_of};

use crate::message::Item;
use crate::opening::queue;
use crate::operator::Finished;
use crate::sending::send_all;
use crate::taking::{Haul, take_all};
use std::alloc::{AllocError, Global};
use std::collections::VecDeque;
use std::sync::Wait;
use std::thread::{Threads, join};

/// Two operators send their lines from threads of their own, and the worker takes them in a third.
/// It gives the items in the order in which they were taken: among them are the lines of each
/// operator, in order, each once. M1, the caller's word for `AllocError`: memory ran out.
///
/// Where no thread can be made, the operators send before the worker takes; with more than 14 lines
/// they then wait for ever.
///
/// Promise: what the worker took of an operator is what it sent, in order, each once.
pub fn exchange<T: Drop + Send, R: Threads + Wait + Sync>(
    rt: &R,
    alloc: Global,
    first: VecDeque<T>,
    second: VecDeque<T>,
) -> Result<Vec<Item<T>>, AllocError>
    ensures first { IfOk result (λ taken. lines_of 0 (map message_of taken.items) ≡ first.items) }
    ensures second { IfOk result (λ taken. lines_of 1 (map message_of taken.items) ≡ second.items) }
{
    let (one, two, worker) = queue::<T>(alloc)?;
    // Where no thread can be made, `join` calls its first closure last: so the worker takes what
    // was sent.
    let (haul, (two, one)) = join(
        rt,
        || -> Haul<T>
            requires { worker.taken ≡ [] }
            ensures { IsHaul worker.channel result }
        { take_all(rt, alloc, worker) },
        || -> (Finished<T>, Finished<T>)
            ensures { (result.0 ≡ sends_lines two second.items) × (result.1 ≡ sends_lines one first.items) }
        {
            join(
                rt,
                || -> Finished<T>
                    ensures { result ≡ sends_lines two second.items }
                { send_all(rt, two, second) },
                || -> Finished<T>
                    ensures { result ≡ sends_lines one first.items }
                { send_all(rt, one, first) },
            )
        },
    );
    let Haul { mut worker, items } = haul;
    worker.settle(one);
    worker.settle(two);
    items
}
