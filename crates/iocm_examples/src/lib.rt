//! Worked examples, and no code that runs: what the definitions of `iocm_model` and `iocm_history`
//! give on an example deck and its variants, as it was stated by hand from the books, and as the
//! prover computes it from them.
//!
//! Each file in `specs/` states the examples of one subject; begin with `BaseDeck`, which has the
//! deck. The functions here have empty bodies, and their contracts are the examples. The kit's
//! finite maps don't compute by themselves, so `proofs/Listed` has each definition on sorted lists,
//! with the lemma that the two agree, and `proofs/Computed` closes each example on them.
//!
//! `specs/WithoutAChange.antt` has the same calls with and without a change, where the two lead to
//! different states; `specs/InTheWay.antt` has what is in the way of an undo, `specs/Fitting.antt`
//! changes that don't fit, and `specs/Premises.antt` runs that meet the premises of the laws of
//! `iocm_runs`.
#![tactic(auto)]

mod effects;
mod histories;
mod numbers;
mod orders;
mod paths;
mod refusals;
mod rules;
mod runs;
mod trees;
mod views;

pub use effects::effects_are_as_worked;
pub use histories::{
    pending_starts_are_as_worked, stages_are_as_worked, steps_elsewhere_are_as_worked,
    steps_on_altered_subchannels_are_as_worked, undo_and_redo_are_as_worked,
    undo_under_later_changes_is_as_worked, what_is_in_the_way_is_as_worked,
};
pub use numbers::numbers_are_as_worked;
pub use orders::{functions_in_progress_are_as_worked, orders_are_as_worked};
pub use paths::paths_change_as_worked;
pub use refusals::{first_refusals_are_as_worked, refusals_are_as_worked};
pub use rules::{
    clauses_of_rules_are_as_worked, limits_of_sets_are_as_worked, rules_are_as_worked,
};
pub use runs::{
    changes_fit_as_worked, premises_are_met, runs_without_a_change_are_as_worked,
    what_blocks_is_as_worked,
};
pub use trees::trees_are_as_worked;
pub use views::{long_path_lists_are_as_worked, views_are_as_worked};
