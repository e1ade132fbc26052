//! Where a refusal comes from: at which line of a text, and what is said of it there.
//!
//! A command tells a refusal by its number and what it is about. Given the bytes of a text,
//! `origin_in_deck`, `origin_in_change` and `origin_in_script` answer whether the text is refused so,
//! and where: at a line, at the end, or as a whole. A `Remark` is printed beside the refusal: the file,
//! the line, the title, the line itself (`line_of`), and which entry of `explain` says more.
//! `all_faults` lists the faults of all statements of a deck, and not only the first.
//!
//! The program may rely on this: a text has an origin exactly if it is refused so. The line is that of
//! the fault, or that of the statement that brings the key or gives the node. `laws.rt` states what
//! such lines promise.
//!
//! Begin with `specs/Origin.antt`, `specs/Remark.antt` and `specs/Faults.antt`. What names no source
//! is our own.
#![tactic(auto)]

mod faults;
mod keys;
mod laws;
mod line;
mod nodes;
mod origin;
mod remark;
mod texts;

pub use faults::all_faults;
pub use laws::{
    keys_of_a_deck_have_lines, nodes_come_from_their_lines, small_texts_are_as_worked,
    the_first_fault_comes_first,
};
pub use line::line_of;
pub use origin::Origin;
pub use remark::Remark;
pub use texts::{origin_in_change, origin_in_deck, origin_in_script};
