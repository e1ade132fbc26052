//! The difference of two configurations: the edits that lead from one to the other.
//!
//! `difference` walks over two configurations at once, in the order of keys. It gives one edit for
//! each key at which they differ, which adds, deletes or replaces a record. The edits stand in five
//! passes: of the orders that were tried, this one altered the fewest subchannels for a while.
//! `is_same_record` tells whether two records are the same, `are_same_operands` and
//! `are_same_candidates` whether what they list is. `Merge` is the walk over two configurations, for
//! those who ask more of each key.
//!
//! What the layers above rely on: in whatever order they are performed, the edits lead from one
//! configuration to the other. A key is edited once, and only where the records differ. No shorter
//! list of edits leads there, and those of the difference the other way round take them back. These
//! are the contracts in `laws.rt`; worked examples are in `examples.rt`.
//!
//! Begin with `specs/Difference.antt`, then `edits.rt`. What names no source is our own.
#![tactic(auto)]

mod edits;
mod examples;
mod laws;
mod merge;
mod passes;
mod same;
mod walk;

pub use edits::difference;
pub use examples::{differences_are_as_worked, passes_are_as_worked};
pub use laws::{
    each_difference_is_edited_once, no_actions_are_fewer, same_records_are_equal,
    the_difference_goes_back, the_difference_leads_in_any_order,
};
pub use merge::{Merge, Met};
pub use same::{are_same_candidates, are_same_operands, is_same_record};
