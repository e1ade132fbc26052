//! What the product means, and no code that runs: the definitions that every contract above cites.
//!
//! Each subject has one file in `specs/`, in five rooms: `Machine` (records, configurations, path
//! lists, which devices an image sees, the masks, subchannel numbers, views and the table),
//! `Rules`, `Operation` (the state, the orders, the steps), `Change` (edits with their refusals and
//! inverses, runs of edits, effects, change trees) and `Laws` (what all of these promise). They are
//! pure: no allocator, capacity or pointer stands in them. A reviewer reads these files to know
//! what is claimed.
//!
//! The functions here have empty bodies: their contracts are the laws. Worked examples stand in
//! `iocm_examples`. What names no source is our own.
#![tactic(auto)]

mod edit_laws;
mod mask_laws;
mod number_laws;
mod rule_laws;
mod run_laws;
mod step_laws;
mod tree_laws;
mod view_laws;

pub use edit_laws::{an_edit_alters_what_differs, the_least_subchannel_is_named};
pub use mask_laws::each_bit_is_of_its_path;
pub use number_laws::{
    cells_are_the_numbers, no_number_comes_twice, numbers_after_a_change, numbers_go_back,
    reached_places_are_of_devices, the_lowest_free_number_is_free,
};
pub use rule_laws::the_first_breach_is_first;
pub use run_laws::{edits_go_back, edits_write_their_effect, states_stay_sound};
pub use step_laws::steps_elsewhere_pass;
pub use tree_laws::{
    accepted_trees_are_runs, inverse_trees_take_back, the_nodes_of_a_tree_are_bounded,
};
pub use view_laws::views_are_listed;
