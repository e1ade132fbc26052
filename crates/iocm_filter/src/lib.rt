//! Filters: which subchannels of a table are asked for.
//!
//! `Filters` has what is asked for, of five kinds: images, devices, control units, paths, and how
//! many paths are online at most. A subchannel with its view is wanted where of each kind nothing
//! is asked for, or it is one of what is. `Filters::of_words` reads the words in which it is asked
//! for, in the forms in which keys are printed; `misread` answers the first of another form.
//!
//! `Sieve` is what of this depends on a configuration, looked up once: the images that have the
//! names, and the devices on the control units. So a row is tried without the configuration, which
//! may be another one by then. What can't be wanted needn't be looked at: an image, a device and a
//! view are tried by themselves.
//!
//! `missing` lists what is asked for by its name and a configuration hasn't; a `Note` says it.
//!
//! Begin with `specs/Wanted.antt` and `specs/Words.antt`, and with `specs/RowExamples.antt` for what
//! is wanted of a small configuration. Then read `filters.rt` and `sieve.rt`. What names no source is
//! our own.
#![tactic(auto)]

mod filters;
mod laws;
mod meant;
mod misread;
mod note;
mod notes;
mod reading;
mod sieve;
mod words;

pub use filters::{Filters, is_at, is_named, is_within, means_path};
pub use laws::{nothing_asked_for_is_all, rows_are_wanted_as_worked, words_are_read};
pub use meant::{DeviceRange, ImageWord, PathWord};
pub use misread::{FilterOption, Misread};
pub use note::Note;
pub use notes::{Asked, image_names, missing};
pub use reading::FilterWords;
pub use sieve::Sieve;
