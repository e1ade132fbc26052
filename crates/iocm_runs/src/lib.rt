//! Runs without a change, the order in which undo and redo are refused, and the inverses of
//! changes: laws of the histories of `iocm_history`, and no code that runs.
//!
//! `specs/RunWithout.antt` says which entries of a history are left when a change goes.
//! `specs/UndoneRun.antt` and `specs/RedoneRun.antt` say that these are a legal history too, and
//! lead to the state after the undo, or after the redo; `specs/StagedRun.antt` is on a change in
//! stages, `specs/LaterChanges.antt` on later changes, and `specs/RedoneAmong.antt` on other
//! changes that were undone and redone between. `specs/UndoAnswers.antt` and
//! `specs/RedoAnswers.antt` say what each is answered, and `specs/Inverses.antt` that the inverse
//! tree of each change takes it back. The functions here have empty bodies: their contracts are
//! these laws. What names no source is our own.
#![tactic(auto)]

mod answers;
mod inverses;
mod runs;

pub use answers::{redo_is_answered_in_order, undo_is_answered_in_order};
pub use inverses::{
    inverses_of_changes_take_back, inverses_of_edits_take_back, inverses_of_stages_take_back,
};
pub use runs::{
    legal_runs_without_lead_there, redone_runs_are_runs, runs_that_count_are_runs,
    staged_runs_are_runs, undone_runs_are_runs,
};
