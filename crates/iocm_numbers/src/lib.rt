//! Subchannel numbers: which number a device has in each channel subsystem, and which device each
//! number is.
//!
//! `Numbers<A>` keeps three things that one invariant ties: the places of devices with their
//! numbers, the number cells with their devices, and a bit for each number that is given away.
//! Contracts see the finite map from places to numbers and what has room: `room` makes room for a
//! number at a place, `place` and `free` can't run out of memory and leave the room as it is.
//! What the layers above rely on: `number_of` and `device_at` are the look-ups of the two
//! directions, `cells` walks over all number cells by channel subsystem, set and number, and
//! `lowest_free` is the least number that no device has.
//!
//! Begin with `numbers.rt`; `bits.rt` has the bits, `first_numbers.rt` the numbers at opening,
//! `first_cells.rt` their cells, and `place_walk.rt` which places are reached. `taken.rt` has which
//! carried numbers are taken, and `sifted.rt` which numbers a change takes away and which places
//! have none. `renumber.rt` has the numbers after the change, `changes.rt` what it did to them, and
//! `exchange.rt` how it is taken back. What names no source is our own.
#![tactic(auto)]

mod bits;
mod build;
mod changes;
mod device_reach;
mod exchange;
mod first_cells;
mod first_numbers;
mod gathered;
mod last_record;
mod laws;
mod looked_at;
mod number_change;
mod number_laws;
mod numbers;
mod place_walk;
mod put_back;
mod reached;
mod renumber;
mod renumbered;
mod sifted;
mod taken;

pub use first_cells::opening_cells;
pub use first_numbers::{opening, opening_rows};
pub use laws::exchanges_lead_from_one_to_the_other;
pub use looked_at::sort_apart;
pub use number_change::NumberChange;
pub use number_laws::numbers_at_places_are_listed;
pub use numbers::Numbers;
pub use reached::is_reached;
pub use renumbered::Renumbered;
