//! What `explain` prints: the entries of refusals, or the list of all.
//!
//! `explain` finds the refusals whose numbers some words are, in their order; small letters are read
//! as capitals. If a word is no refusal's number, it is answered. `write_explained` writes the entries
//! of the refusals, or of none the number and the title of each there is: exactly what `told` says.
//! `title_of` has the titles for other commands.
//!
//! The texts are those of docs/MESSAGES.md. `tests/messages --write` writes the table of them anew,
//! in the order of the list: `entries.rt` with the files in `entries/`, and `specs/Entry.antt`. The
//! gate compares them.
//!
//! Begin with `specs/Explain.antt`, then `explaining.rt` and `printing.rt`. What names no source is our own.
#![tactic(auto)]

mod entries;
mod entry;
mod explaining;
mod laws;
mod named;
mod printing;

pub use entries::entry_of;
pub use entry::{Entry, Heading, title_of};
pub use explaining::{Explained, Unexplained, explain};
pub use laws::{entries_are_as_worked, refusals_are_named_by_number};
pub use named::rule_named;
pub use printing::write_explained;
