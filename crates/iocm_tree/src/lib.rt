//! The edits of a machine's configuration, and change trees of them, as values in memory.
//!
//! An `Edit` adds, deletes or modifies one record; numbers and live records come along with it, and
//! it carries room for its way back: what performing it gives up is written into memory that it has
//! already, so that it can always be taken back. Contracts see it as a `Carried`: the model's edit,
//! the numbers that it frees, and the subchannels whose live records it has room for. A `Tree` is
//! an edit, or a Row, a Group or a Choose of trees; contracts see it by `tree_of` as a tree of such
//! edits, and by `plain_tree` as the model's change tree.
//!
//! What the layers above rely on: `from_parts` and `into_parts` are exact both ways, `set_kept`
//! overwrites live records without memory, and `copy_in` gives an equal edit or tree under another
//! allocator. `Tree::refusal` tells whether a tree is over a limit without going deeper than the
//! limit, and a tree of any depth is let go in a loop. Begin with `Carried.antt` and `Trees.antt`
//! in `specs/`, then `edit.rt` and `tree.rt`.
#![tactic(auto)]

mod action;
mod edit;
mod tree;
mod verb;

pub use action::Action;
pub use edit::{Edit, Parts};
pub use tree::Tree;
pub use verb::Verb;
