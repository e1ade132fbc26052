//! What a run of calls means, and no code that runs: histories, which of their entries are struck by
//! undo and redo, changes in stages, the state that what is left gives, which changes stand on
//! which, and which histories are legal.
//!
//! Each subject has one file in `specs/`; `docs/UNDO.md` tells a system programmer what undo does.
//! Each entry that is not struck overwrites cells, and what is left is read as a state.
//! `specs/Reckoning.antt` has what a journal keeps beside a machine to answer undo and redo as
//! histories say: the changes by their numbers, which of them stand, when each was last undone, and
//! which cells they share.
//!
//! The functions here have empty bodies: their contracts are laws of the definitions, and the
//! layers above rely on these. Some of their proofs cite lemmas of `proofs/`, too: `iocm_activate`
//! those of `Fitting`; `iocm_stage` of `OneCell`; `iocm_journal` and `iocm_core` of `Along`,
//! `EachCall`, `EditsLike`, `Facts`, `Found`, `Level`, `Numbers`, `OneCell`, `Reckoned`,
//! `RedoMeans`, `Settled`, `TheGreatest`, `UndoMeans`, `Undoing` and `Undone`; `iocm_headline` of
//! `OneCell`, `Striking`, `Undoing` and `Undone`; and `iocm_runs`, which has more laws of histories,
//! of most.
//!
//! Begin reading at `specs/Legal.antt`, which has the answer to each call. Runs of calls that were
//! worked by hand stand in `iocm_examples`. What names no source is our own.
#![tactic(auto)]

mod history_laws;
mod journal_laws;
mod latest_first_laws;
mod mark_laws;
mod redo_laws;
mod stage_laws;
mod undo_laws;

pub use history_laws::{
    activations_do_what_they_mean, other_calls_leave_the_state, runs_are_legal, states_stay_in_use,
    steps_step, trees_over_a_limit_want_no_memory,
};
pub use journal_laws::{
    activations_are_there, changes_are_entries, changes_stay_there, changes_were_made,
    commits_are_there, each_change_is_there, later_stand_on_it, one_less_is_undone,
    one_less_stands, only_these_are_there, others_stand_on_it, redo_means_the_redo,
    stages_are_ready, standing_were_accepted, the_greatest_is_found, undo_means_the_undo,
    undone_were_accepted,
};
pub use latest_first_laws::{
    latest_is_never_blocked, only_later_standing_changes_stand_on, steps_may_be_decided_anew,
};
pub use mark_laws::{
    changes_count_while_they_stand, restoring_undoes_striking, standing_changes_mark_nothing,
    undos_strike_their_own,
};
pub use redo_laws::{
    redo_finds_what_the_undo_left, redo_puts_the_cells_forward, redo_takes_undo_back,
};
pub use stage_laws::{abort_leaves_the_other_steps, commit_does_the_edits};
pub use undo_laws::{
    standing_changes_are_there, standing_changes_fit, undo_does_what_the_inverse_tree_does,
    undo_does_what_the_inverses_do, undo_is_refused_only_for, undo_leaves_the_run_without,
    undo_puts_the_cells_back,
};
