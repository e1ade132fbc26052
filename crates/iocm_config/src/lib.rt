//! A configuration in memory: at most one record of each key, in the order of keys.
//!
//! `Config<A>` owns its records under any allocator. Contracts see it as a finite map from keys to
//! records, with the keys that have a place: `put` wants a place, and neither it nor `take` can
//! run out of memory; `room`, which gives a key a place, and `from_records` can. What was taken
//! out can always be put back. What the layers above rely on: `get` is the map's lookup, `walk` its
//! entries in the order of keys, `put` its insert and `take` its remove. `from_records` builds a
//! whole configuration at once, in any order. A `RecordWalk` finds records one after the other.
//! Begin with `config.rt`.
#![tactic(auto)]

mod config;
mod listed;
mod record_walk;

pub use config::Config;
pub use record_walk::RecordWalk;
