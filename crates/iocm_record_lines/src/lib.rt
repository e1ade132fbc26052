//! Lines of JSON of records and of edits, for programs that read what the program tells.
//!
//! `record_lines` gives a line for each record of a configuration, `edit_lines` one for each edit of a
//! difference, with the record of its key before and after it, and `undo_lines` one for each edit that
//! takes a change back, with the numbers and the states of subchannels that come along. What their
//! members are put by, as `put_quoted`, is for other lines too.
//!
//! The layer above may rely on this: each line is exactly the text of its value, and each value is
//! read back from its text. What a statement carries along comes out as a string that each reader of
//! JSON takes, whatever bytes it has.
//!
//! Begin with `specs/Records.antt` and `specs/Examples.antt`, then `record.rt`. What names no source is
//! our own.
#![tactic(auto)]

mod device;
mod edits;
mod laws;
mod lines;
mod names;
mod operands;
mod paths;
mod put;
mod quoting;
mod record;
mod undo;
mod unit;

pub use device::{UnitText, put_units};
pub use edits::edit_lines;
pub use laws::{lines_are_read_back, records_are_as_worked};
pub use lines::record_lines;
pub use names::put_names;
pub use paths::{PathObject, put_paths};
pub use put::{Hex2, put as put_shown, put_comma};
pub use quoting::put_quoted;
pub use record::use_text;
pub use undo::put_undo_line;
pub use unit::put_ranges;
