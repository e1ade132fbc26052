//! Which operands each statement knows, and the forms that this product leaves out by name.
//!
//! `known.rt` has the table of the words that each statement knows, with the form that each stands
//! in. What is required, what stands bare, what is in another form than its own and what is carried
//! along follow from it. `left_out.rt` finds the operands that are left out: NOTPART, a value that
//! names several channel subsystems at once, several paths of a CHPID, a list of subchannel sets.
//! What a value says is read by the crate above.
//!
//! Begin with `specs/Known.antt`.
#![tactic(auto)]

mod known;
mod laws;
mod left_out;

pub use known::{Form, Row, has_other_form, is_carried, is_one_missing, lacks_required, table};
pub use laws::forms_are_left_out_as_worked;
pub use left_out::{has_left_out, is_text_left_out};
