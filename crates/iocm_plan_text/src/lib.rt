//! What a plan prints: of two configurations the objects that differ, what becomes of images and devices, notes and a
//! summary, as filters leave it.
//!
//! `plan_of` gives the whole text, and whether anything is told. No machine and no subchannel number comes into it.
//!
//! Begin with `specs/Whole.antt`, `specs/Summary.antt` and `specs/Notes.antt`, and with `specs/Examples.antt` for what
//! is printed. All of it is our own.
#![tactic(auto)]

mod asked;
mod counted;
mod laws;
mod limits;
mod notes;
mod plan_text;
mod summary;
mod whole;

pub use asked::PlanAsked;
pub use counted::kind_text;
pub use laws::{a_plan_of_itself_is_one_line, plans_are_as_worked};
pub use limits::{is_too_low, low_limits};
pub use plan_text::Plan;
pub use whole::plan_of;
