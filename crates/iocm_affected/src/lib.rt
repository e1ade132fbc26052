//! Which places and images a change of one record may affect, found without a look at the whole
//! machine.
//!
//! When a record is added, deleted or replaced, only some devices can come in, leave or be seen
//! differently: those that lead to the record. A device names its units, a unit its paths, a path
//! its images by name; an index says who names whom, so `affected_by` goes these ways back and
//! lists the places that it comes to, and the images whose views the change may alter.
//!
//! What the layer above may rely on: `AreAllAffected`, at every other place a device is reached as
//! before and each image sees what it saw, and every other image sees everywhere what it saw; where
//! such an image was there before, no device of its channel subsystem comes in or leaves. More may
//! be listed than changes.
//!
//! Begin with `specs/Affected.antt`, then `changed.rt`. What names no source is our own.
#![tactic(auto)]

mod alike;
mod changed;
mod choice;
mod images;
mod places;
mod users;

pub use alike::is_seen_alike;
pub use changed::{Affected, affected_by};
