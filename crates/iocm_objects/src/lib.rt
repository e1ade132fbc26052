//! The objects that a change of a configuration adds, deletes or changes, and how they are told.
//!
//! An object is a record but that of an online pair; to a path belong the images that are online at it. `objects_of`
//! gives those that differ between two configurations, each with its fields before and after as values, and with what
//! is told of them. `runs_of` joins devices of which the same is told, and `object_lines` prints runs. Between the two
//! a caller may leave objects out. `count_objects` counts them by kind.
//!
//! What the layer above may rely on: a key is among the objects exactly where it differs, and the runs, written out,
//! are the objects. These laws are in `laws.rt`.
//!
//! Begin with `specs/Objects.antt`, `specs/Fields.antt` and `specs/Told.antt`, and with `specs/Examples.antt` for what
//! is told. All of it is our own.
#![tactic(auto)]

mod carried;
mod counts;
mod differing;
mod field;
mod fields;
mod laws;
mod lines;
mod object;
mod online;
mod path_texts;
mod runs;
mod told;
mod told_paths;
mod value_texts;

pub use counts::{ObjectKind, count_objects, is_of_kind};
pub use field::{Field, Value};
pub use fields::fields_in;
pub use laws::{objects_are_as_worked, objects_are_the_keys_that_differ, runs_are_objects};
pub use lines::{name_text, object_lines, told_text};
pub use object::{Change, Object, objects_of};
pub use runs::{Run, runs_of};
pub use told::{Told, told_of};
pub use value_texts::value_text;
