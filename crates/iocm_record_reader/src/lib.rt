//! The records of a deck: a configuration deck is a set of records.
//!
//! `from_statements` reads the statements of a configuration deck: it gives what `Deck.antt` in
//! `specs/` says of them, or the first fault with its line. What a record is stands in
//! `iocm_record`; the operands of each statement are read by `iocm_operands`. The other calls serve
//! the statements of change decks: `read_statement`, one statement as a deck has it, and operands
//! that they have too. Begin with `specs/Deck.antt`, then `deck.rt`.
#![tactic(auto)]

mod chpid;
mod claimed;
mod deck;
mod device;
mod operands;
mod progress;
mod resource;
mod statements;
mod unit;

pub use chpid::{add_online, chpid_path};
pub use deck::{from_statements, machine_images, read_statement};
pub use device::{device_set, statement_devices};
pub use progress::Progress;
pub use statements::statement_records;
pub use unit::unit_number;
