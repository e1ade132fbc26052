ghost use Rattle.std.specs.Prelude.{◌≡◌, ◌∷◌, ◌++◌, ℕ, Some};
ghost use Rattle.iocm_history.specs.Account.{marked_entries, state_at};
ghost use Rattle.iocm_history.specs.Change as change;
ghost use Rattle.iocm_history.specs.Entry.{undo, Entry, History};
ghost use Rattle.iocm_history.specs.MarkedEntry.{change_at};
ghost use Rattle.iocm_history.specs.UndoLaws.{undo_entry};
ghost use Rattle.iocm_core.specs.Told.{history_in};
ghost use Rattle.iocm_headline.specs.Headline.{LeavesTheRunWithout};
ghost use Rattle.iocm_runs.specs.Inverses.{IsTakenBackByItsInverse};
ghost use Rattle.iocm_runs.specs.UndoAnswers.{UndoAnswered};

use iocm_core::{Closed, Core};

/// Closes a core, after any run of calls: an undo that is accepted leaves what the run without the
/// change and without the steps on its subchannels leaves; each undo is answered by the first cause
/// that applies; and the inverse tree of each accepted change takes it back.
///
/// Promise: an accepted undo leaves the run without its change; its inverse takes each change back.
pub fn close_and_tell(core: Core) -> Closed
    ensures state { result.plant.state ≡ state_at core.opening core.history }
    ensures history { history_in result.trace.changes.items result.trace.entries.items ≡ core.history }
    ensures undone { (n : ℕ) (h : History) → core.history ≡ undo_entry n ∷ h
        → LeavesTheRunWithout core.opening h n result.plant.state }
    ensures answered { (later h : History) (e : Entry) (n : ℕ) → core.history ≡ later ++ e ∷ h → e.call ≡ undo n
        → UndoAnswered core.opening h n e }
    ensures taken_back { (n : ℕ) (c : change.Change)
        → change_at n (marked_entries core.opening core.history) ≡ Some c → IsTakenBackByItsInverse c }
{
    // For the proof alone: the history is legal.
    core.is_legal();
    core.close()
}
