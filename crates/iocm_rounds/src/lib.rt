//! One round of calls on a machine: two images and two operators at the same time, each its calls
//! in order.
//!
//! The images make their calls from threads of their own (`images.rt`). The operators send theirs
//! through the queue to one worker, which makes them (`operators.rt`, `worker.rt`). `drive` runs a
//! round, and gives what came of each call at the place of its line.
//!
//! What the layer above may rely on: the calls that were made of each actor are the first of its
//! calls, in order, each with its receipt; the seats have gained just those. Where nothing stopped
//! the round, all calls were made.
//!
//! Begin with `specs/Rounds.antt` and `driving.rt`. What names no source is our own.
#![tactic(auto)]

mod driving;
mod gates;
mod images;
mod office;
mod operators;
mod round;
mod stops;
mod worker;

pub use driving::{Driven, drive};
pub use gates::{Actor, AllOpen, Gates};
pub use images::Image;
pub use office::Office;
pub use round::{Round, Seats};
