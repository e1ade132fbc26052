//! What a plan tells of paths that may go off and on again on a real machine, though no mask shows it.
//!
//! `put_offon` puts the section behind a text: objects that are reasons, those of which the same is told together, each
//! with its fields that lead to devices, and which paths of how many devices go off and on for which images.
//!
//! Law: the lines have just the reasons of the objects.
//!
//! Begin with `specs/Lines.antt` and `specs/Texts.antt`, and with `specs/Examples.antt` for what is printed. All of it is
//! our own.
#![tactic(auto)]

mod devices;
mod fields;
mod kind;
mod laws;
mod line;
mod lines;
mod texts;

pub use kind::Kind;
pub use laws::{each_reason_is_told_in_a_line, paths_off_and_on_are_told_as_worked};
pub use line::{Line, ObjectRange};
pub use texts::put_offon;
