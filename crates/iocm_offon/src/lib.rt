//! Why paths may go off and on again on a real machine, though no mask shows it.
//!
//! A path that stays online by another route has reasons: the objects that lead it another way. `reasons_of` gives those
//! of all images, runs of devices and paths, as filters leave them. `by_object` finds the reasons of an object by one
//! search, and `paths_text` and `images_in` tell which paths of which images reasons lead another way.
//!
//! Law: a path has a reason exactly if it stays online by another route.
//!
//! Begin with `specs/Reasons.antt` and `specs/Rerouted.antt`. All of it is our own.
#![tactic(auto)]

mod laws;
mod online;
mod reached;
mod reason;
mod rerouted;
mod route;
mod side_on;
mod under_keys;

pub use laws::{each_path_off_and_on_has_a_reason, reasons_are_as_worked};
pub use reached::{has_run, images_in, is_each, is_over, paths_in, paths_text};
pub use reason::{Reach, Reason, Spot, put_reasons_at};
pub use rerouted::{reasons_among, reasons_of};
pub use under_keys::{Group, by_object, reasons_under};
