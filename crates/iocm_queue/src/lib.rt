//! The queue between two operators and one worker, over a bounded channel of 16 places.
//!
//! `queue` gives both operators and the worker, each of which may go to a thread of its own. An
//! operator sends its lines by `submit`, and then an end mark by `finish`; `send_all` does both.
//! The worker takes items by `next`, until it took both end marks (`is_over`).
//!
//! What the layer above may rely on: once the worker took an operator's end mark, the lines that it
//! took of that operator are those which that operator sent, in order, each once (`settle`).
//!
//! Begin with `specs/Taken.antt` and `worker.rt`; `exchanging.rt` has two operators and a worker in
//! threads of their own. What names no source is our own.
#![tactic(auto)]

mod exchanging;
mod message;
mod opening;
mod operator;
mod part;
mod sending;
mod taking;
mod worker;

pub use exchanging::exchange;
pub use message::{Item, Message};
pub use opening::queue;
pub use operator::{Finished, Full, Operator};
pub use sending::{end, send, send_all};
pub use worker::Worker;
