//! Change trees: from a tree to the statements of a change deck that writes it.
//!
//! `write_tree` gives a statement for each leaf, with its verb in the name field, and ROW, GROUP
//! and CHOOSE with END round the statements of their parts; `deck_bytes` of `iocm_columns` makes
//! bytes of them. The operands of a record that is added or modified are those of the canonical
//! deck; what is deleted is written by its key alone. What is written is exactly what
//! `specs/Written.antt` says, and `laws.rt` says that reading what was written gives the same tree.
//!
//! Begin with `specs/Written.antt` and `specs/Leaves.antt`, then `tree.rt`; `keys.rt` writes what
//! is deleted. What names no source is our own.
#![tactic(auto)]

mod keys;
mod laws;
mod lines;
mod operands;
mod records;
mod tree;

pub use laws::{leaves_are_read_again, trees_are_read_again};
pub use lines::{put_edit, verb_name};
pub use operands::{path_operand, valued};
pub use tree::write_tree;
