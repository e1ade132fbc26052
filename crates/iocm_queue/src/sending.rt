ghost use Rattle.std.specs.Prelude.{◌≡◌, ◌++◌};
ghost use Rattle.iocm_queue.specs.Ends.{sends_line, sends_lines};

use crate::operator::{Finished, Operator};
use std::collections::VecDeque;
use std::sync::Wait;
use std::thread::yield_now;

/// Sends lines one after the other, and then the end mark. At Q1 it tries again.
pub fn send_all<T: Drop, R: Wait>(
    rt: &R,
    mut operator: Operator<T>,
    mut lines: VecDeque<T>,
) -> Finished<T>
    ensures { result ≡ sends_lines operator lines.items }
{
    while let Some(line) = lines.pop_front() {
        send(rt, &mut operator, line);
    }
    end(rt, operator)
}

/// Sends a line. At Q1 it tries again.
pub fn send<T: Drop, R: Wait>(rt: &R, operator: &mut Operator<T>, mut line: T)
    ensures { operator.new ≡ sends_line operator.old line }
{
    for _ in rt.forever() {
        match operator.submit(rt, line) {
            Ok(()) => return,
            Err(full) => line = full.item,
        }
        yield_now();
    }
    unreachable!()
}

/// Sends the end mark. At Q1 it tries again.
pub fn end<T: Drop, R: Wait>(rt: &R, mut operator: Operator<T>) -> Finished<T>
    ensures { result ≡ operator }
{
    for _ in rt.forever() {
        match operator.finish(rt) {
            Ok(done) => return done,
            Err(back) => operator = back,
        }
        yield_now();
    }
    unreachable!()
}
