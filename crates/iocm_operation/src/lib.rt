//! A script that is run on a machine: its rounds, one after the other, and the answer to each line.
//!
//! `operate` opens a system round a core, runs the rounds, and closes it (`operating.rt`). In a
//! round the lines of both images and both operators ask for calls at the same time (`asking.rt`,
//! `round.rt`). Each line keeps the place of its call in the trace (`placing.rt`). Once the machine
//! is closed it gets the answer there (`answering.rt`).
//!
//! What the layer above may rely on is one sentence, `IsOperation`. The trace is a legal history of
//! the lines' calls, along each actor in order, and each line has the answer of its own call.
//!
//! `laws.rt` has functions that do nothing, whose contracts are laws. Where each round has the lines
//! of one actor, the calls are in the trace as their lines are in the script.
//!
//! Begin with `specs/Saying.antt`, `specs/Segments.antt` and `specs/Running.antt`, then
//! `operating.rt`. What names no source is our own.
#![tactic(auto)]

mod answered;
mod answering;
mod asking;
mod laws;
mod operated;
mod operating;
mod placed;
mod placing;
mod round;

pub use answered::Answered;
pub use laws::{one_actor_has_one_history, one_actor_has_one_order};
pub use operated::Operated;
pub use operating::operate;
