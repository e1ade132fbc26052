//! The text of a difference: from the edits that lead from one configuration to another to a change
//! deck of them.
//!
//! `difference_text` writes edits in their order, with those together that stand in one statement
//! best: devices that follow each other, and the pairs of one path. On request, what was there
//! stands before each run as comments. No ROW stands round the deck: several statements are one.
//!
//! What the layers above rely on: the bytes are those of `specs/Text.antt`, and they are read again
//! as the same edits in the same order. This is a contract in `laws.rt`; texts that were worked by
//! hand are in `examples.rt`.
//!
//! Begin with `specs/Text.antt` and `specs/Runs.antt`, then `text.rt`; `statements.rt` writes the
//! statements of a run. What names no source is our own.
#![tactic(auto)]

mod comments;
mod examples;
mod laws;
mod lines;
mod runs;
mod statements;
mod text;

pub use examples::texts_are_as_worked;
pub use laws::differences_are_read_again;
pub use text::difference_text;
