//! Change decks: from statements to the change tree that they write.
//!
//! `read_tree` takes the statements in order. ROW, GROUP and CHOOSE open a node, END closes the
//! innermost, and any other statement gives a leaf for each record that it adds or modifies and for
//! each key that it deletes. What is open stands on a stack, so that the nesting of a deck costs no
//! depth of calls. The answer is exactly the tree that `specs/Reading.antt` gives, or the fault of
//! the first statement that has one; the limits on depth and leaves are tried after each statement.
//! The tree lies under any allocator.
//!
//! Begin with `specs/Reading.antt` and `specs/Leaves.antt`, then `read.rt` and `reading.rt`. What
//! names no source is our own.
#![tactic(auto)]

mod examples;
mod gathering;
mod kind;
mod leaves;
mod node;
mod nodes;
mod order;
mod read;
mod reading;
mod size;
mod stack;

pub use examples::worked_decks_are_read;
pub use kind::NodeKind;
pub use leaves::edits_of;
pub use node::Node;
pub use nodes::Nodes;
pub use read::read_tree;
pub use reading::{OpenNode, Reading};
pub use size::Size;
