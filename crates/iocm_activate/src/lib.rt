//! Activation of change trees: all or none, with the tree that takes the change back.
//!
//! `activate` performs a `Tree` on a `Plant` that keeps the rules: all the edits that the tree
//! means, or none. It walks through the tree and logs each edit that it performs, with the edit
//! that takes it back; a part of a Choose that is refused, and the whole tree where it is refused
//! or where memory runs out, is taken back from the log without memory. `Done` has the inverse
//! tree, the `Effect`, and what each edit did. `make` activates for a report, without the effect;
//! `carry_out` for an undo or a redo, and gives the inverse tree alone. `fits` tries whether the
//! inverse tree of a change would take back now just what the change did, and leaves the state as
//! it was; `carry_back` takes it back if so. What an `Effect` has of one kind is `Written`, cells
//! in order. The effect of a single edit is made in `only_edit.rt`. `Effects` has the effects of
//! all changes, and tells whether two have a cell in common.
//!
//! What the layer above may rely on: the state afterwards and each refusal are those of the model's
//! `meaning`, a refused tree leaves the state as it was, and the inverse tree takes the change
//! back, by its meaning and, edit by edit, without memory. Begin with `specs/Told.antt` and
//! `specs/Walked.antt`, then `activation.rt` and `walk.rt`; of `fits` with `specs/Fitting.antt`,
//! then `fitting.rt`; of `Effects` with `specs/Signatures.antt`. What names no source is our own.
#![tactic(auto)]

mod activation;
mod carrying_back;
mod carrying_out;
mod cell_key;
mod done;
mod effect;
mod effects;
mod fitting;
mod leaf;
mod log;
mod making;
mod only_edit;
mod rules;
mod sharing;
mod signature;
mod taking_back;
mod turned;
mod unchanged;
mod walk;
mod whole_tree;
mod written;

pub use activation::activate;
pub use carrying_back::carry_back;
pub use carrying_out::carry_out;
pub use done::{Done, Made};
pub use effect::Effect;
pub use effects::Effects;
pub use fitting::fits;
pub use making::make;
pub use written::Written;
