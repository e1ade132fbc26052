//! What is printed, and of which decks: a deck is opened or refused, and there is one writer.
//!
//! `open_deck` reads the bytes of a deck and checks its rules: it gives a configuration, or a
//! `Refusal`, the one value that says why a command gives no answer. `Table` is what it takes to
//! print the table of a configuration's subchannels: all memory is taken when it is made, and
//! `write_table` streams its rows, as text or as lines of JSON. An `Output` is a writer with the program's own buffer; a write
//! that failed is an error, `ConsoleError::Write`, and is noted there.
//!
//! The layer above may rely on this: a deck is opened exactly as `opened_deck` says, and what is
//! written is exactly the text of the definitions, as far as it is known what the writer holds. Only
//! lack of memory (M1) may come instead, before the first byte is written.
//!
//! Begin with `specs/Opening.antt`, `specs/Refusal.antt` and `specs/Shown.antt`, then `opening.rt`,
//! `refusal.rt` and `table.rt`. `row.rt` puts a line of the table together, digit by digit. What
//! names no source is our own.
#![tactic(auto)]

mod cells;
mod error;
mod laws;
mod like_devices;
mod lines;
mod opening;
mod output;
mod refusal;
mod row;
mod seen;
mod status;
mod subsystem_cells;
mod table;

pub use error::{ConsoleError, Written};
pub use laws::{refusals_are_as_worked, tables_are_as_worked};
pub use opening::{open_deck, read_config, read_statements};
pub use output::Output;
pub use refusal::{About, Refusal};
pub use row::{Line, put_line, write_heading};
pub use status::Status;
pub use table::{Table, write_table};
