//! The plant: a machine in operation, whose subchannels answer orders, and one record of whose
//! configuration can be added, deleted or modified under them.
//!
//! `Plant` has the configuration, the subchannel numbers, a seat for each subchannel, and the index
//! of who names whom; contracts see its state and what has a place in its tables. `Plant::open`
//! makes one of a configuration that keeps the rules. `step`, `device_begin` and `device_end` are
//! the orders and the events of one subchannel. `apply` performs an edit and gives the edit that
//! takes it back, with what it did; `force` does so where subchannels are busy or status pending,
//! too. `unapply` takes an edit back without memory.
//!
//! What the layer above may rely on: each call leaves the state that the model's definition gives,
//! a refused edit leaves the state as it was, no call loses a place, and what can be taken back can
//! be so still after orders, events, and edits that were taken back (`laws.rt`). The lemmas of
//! `proofs/` are this crate's own: no layer above cites them. Begin with `specs/Operating.antt`,
//! then `plant.rt`, `performing.rt` and `unapply.rt`. What names no source is our own.
#![tactic(auto)]

mod alike;
mod following;
mod laws;
mod obstacle;
mod open;
mod performing;
mod plant;
mod quiet;
mod record;
mod seating;
mod steps;
mod touched;
mod unapply;

pub use laws::what_happens_between;
pub use open::Unopened;
pub use plant::Plant;
pub use touched::{Applied, Touched};
