//! The journal: which changes stand, which are undone, what takes each back and what does it again.
//!
//! `Journal` keeps every accepted change with its inverse tree, what each of its edits did, and
//! whether it stands. `accept` adds a change without memory, `undo` takes one back on the machine,
//! `redo` does the last one undone again. An undo is refused where a change stands on it: a later
//! one that stands and wrote a cell that it wrote; or, where the change no longer fits, any later
//! one that stands, and each earlier one that was undone since and doesn't stand.
//! The undos are noted in their order (`undos.rt`): so an undo reads the changes accepted and the
//! undos made since its change, and all changes only where a change stands on it. Where no later one
//! has a cell in common and all is quiet, one walk tries the change and takes it back.
//!
//! What the layer above may rely on: beside a history (`IsJournalOf`) the journal answers undo and
//! redo as the history's definition says, and leaves the machine in the state to which the history
//! then leads. `accept` leaves it one of the history with the entry that accepts the change, and an
//! entry that is about no change leaves it one as it is (`laws.rt`). Contracts see a journal as
//! `Journaled`. Begin with `specs/Journaled.antt`, `specs/Kept.antt` and `specs/Now.antt`, then
//! `journal.rt`, `undo.rt` and `redo.rt`. What names no source is our own.
#![tactic(auto)]

mod journal;
mod kept;
mod laws;
mod quiet;
mod redo;
mod standing_on;
mod undo;
mod undos;

pub use journal::Journal;
pub use laws::journals_keep_to_histories;
