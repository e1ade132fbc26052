//! The system: one machine, on which many threads make calls.
//!
//! `System::open` puts a core under a lock, and gives the first caller. Each thread has a caller of
//! its own, which another one splits off; it makes its calls by `io`, `device_begin`, `device_end`
//! and `operate`, and gets a receipt for each, with the call's place in the trace. `seen` tells
//! without the lock how many calls are published. Once all callers are joined again, `close` gives
//! the core back.
//!
//! What the layer above may rely on: the trace of the core that is given back is a legal history,
//! and the receipts of the callers are all its entries since the opening, each at its number, once.
//! So whatever the threads did, it was one run of calls, in an order that all receipts agree with.
//!
//! Begin with `specs/Sights.antt`, `system.rt` and `desk.rt`. What names no source is our own.
#![tactic(auto)]

mod asked;
mod caller;
mod closing;
mod desk;
mod gate;
mod making;
mod receipt;
mod system;
mod turn;

pub use asked::Asked;
pub use caller::Caller;
pub use closing::Unclosed;
pub use gate::{Gate, Open};
pub use receipt::{Back, Receipt};
pub use system::System;
pub use turn::{Ran, Turn, in_turn};
