//! Changes in stages: a change is begun, advanced edit by edit, and then committed or aborted.
//!
//! `begin` tries a change tree whole on a `Plant`, takes it back, and keeps in a `Staged` the edits
//! that do it again and all memory that these will need. `Staged::advance` performs the next edit,
//! `Staged::commit` all that are left, and `Staged::abort` takes back those that were performed:
//! none of these can be refused, or run out of memory. Meanwhile the subchannels that it alters
//! are held: `Staged::holds` names them, and the layer above does no step on them.
//!
//! What the layer above may rely on: wherever steps come between, and no other change, so long as
//! none is on a subchannel that is held, the edits do what they did when the change was begun, and
//! an abort leaves the state as if it had not been. Begin with `specs/Staged.antt`, then
//! `beginning.rt` and `staged.rt`. What names no source is our own.
#![tactic(auto)]

mod beginning;
mod copies;
mod laws;
mod performing;
mod staged;

pub use beginning::begin;
pub use laws::steps_elsewhere_pass_a_stage;
pub use staged::Staged;
