//! The rules of control units: their paths (V5), their links (V6), their ranges of unit addresses
//! (V7), and that no two units answer to one address on a link (V14).
//!
//! V5, V6 and V7 are `Wanted`s, which `first_wanted` of `iocm_lookup` looks for among the unit
//! records: what each wants is exactly what the model's predicate says. `first_shared_address` (V14)
//! answers the first unit that breaks its rule itself: it goes path by path, asks the index of the
//! configuration which units are on a path, and so compares nobody with everybody. These rules take
//! no memory.
//!
//! Where a configuration has no index yet, `first_shared_address_at_opening` answers V14. It lists
//! the addresses that units have on their paths. Where one is there twice, it lists the ranges of
//! unit addresses on these too. It makes an index only where two ranges meet.
//!
//! `is_on_one_link` tells whether two control units have one link at a path.
//!
//! Begin with `units.rt`, then `sharing.rt`, then `sharing_at_opening.rt` and `link_ranges.rt`. What
//! names no source is our own.
#![tactic(auto)]

mod link_ranges;
mod links;
mod path_lists;
mod ranges;
mod sharing;
mod sharing_at_opening;
mod units;

pub use links::is_on_one_link;
pub use ranges::{WrongRanges, is_address_held};
pub use sharing::{first_shared_address, is_shared_on};
pub use sharing_at_opening::first_shared_address_at_opening;
pub use units::{WrongLinks, WrongPaths};
