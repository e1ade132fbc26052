//! The core: every call on a machine goes through one function, is recorded with its answer, and
//! leaves exactly the state that the history gives; what was advanced of a change in stages counts
//! once that is committed.
//!
//! `Core::open` opens a machine, `Core::call` makes a call, `Core::close` gives the machine and its
//! trace. A `Call` is an order of an image on its subchannel, a device begin or a device end; the
//! activation of a change tree, at once or in stages; an undo or a redo; or a question. `view`,
//! `live`, `changes` and `advanced` tell what the machine shows between calls.
//!
//! What the layer above may rely on: the history is legal, so each answer is the one that the
//! definition of histories gives, or, of an activation, a Begin, an undo or a redo, lack of memory;
//! and the machine is in the state to which its history leads, once a change that is staged is
//! given up. Begin with `specs/Running.antt` and `specs/Seen.antt`, then `calling.rt` and
//! `installation.rt`. What names no source is our own.
#![tactic(auto)]

mod accepting;
mod call;
mod calling;
mod changing;
mod closing;
mod installation;
mod opening;
mod refusals;
mod showing;
mod steps;
mod trace;
mod undoing;

pub use call::Call;
pub use calling::{Core, Full};
pub use closing::Closed;
pub use trace::{Entry, Trace};
