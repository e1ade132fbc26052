//! How a question to a configuration is asked: by key, by kind, and by who names whom.
//!
//! By key `Config::get` answers. By kind `first_wanted` does, the key of the first record that is
//! `Wanted`: it walks over the records of one kind alone, which stand side by side in the order of
//! keys. `records_of_kind` gives them one after the other. `first_wanted_by_named` is for records
//! that are judged by others that they name, and keeps the one that was found last.
//! `first_wanted_among` answers the same where only records at some keys can be wanted. Who names a
//! thing an `Index` answers; `index_of` builds that of a configuration.
//!
//! What the layer above may rely on: what `first_wanted` answers is the first of all records, since
//! a `Wanted` says of which kind those are that it looks for; and a naming is in the index exactly
//! where the record of its user is in the configuration and names its thing (`IsIndexOf`).
//! `is_image` and `is_image_in` find an image of a name, `SubsystemImages` those of many names,
//! `is_online_before` an online record of a path, and `first_repeated` two users of a thing that have
//! one address on it. Where a configuration has no index yet, `is_any_twice` tells of numbers that
//! its records have whether two records share one.
//!
//! Begin with `wanted.rt`, then `specs/Indexed.antt`. What names no source is our own.
#![tactic(auto)]

mod among;
mod images;
mod indexing;
mod kept;
mod kind;
mod kind_walk;
mod onlines;
mod repeats;
mod subsystem;
mod subsystem_images;
mod twice;
mod wanted;

pub use among::{first_wanted_among, is_wanted_at, lesser};
pub use images::{is_image, is_image_in};
pub use indexing::index_of;
pub use kept::{WantedByNamed, first_wanted_by_named, get_after};
pub use kind::RecordKind;
pub use kind_walk::{KindWalk, records_of_kind};
pub use onlines::is_online_before;
pub use repeats::{Addressed, first_repeated};
pub use subsystem::subsystems;
pub use subsystem_images::SubsystemImages;
pub use twice::is_any_twice;
pub use wanted::{Wanted, first_wanted, is_any_wanted};
