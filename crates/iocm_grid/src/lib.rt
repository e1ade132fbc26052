//! A grid: what is kept at each subchannel, found by its place and not by a search.
//!
//! A `Grid` has rows by subchannel, in lists by channel subsystem, by set, and by number and image.
//! The lowest free number is the one that is given, so the numbers of a set have few gaps, and a
//! row is found by three indices however many rows there are. The rows of one number stand side by
//! side: what an edit does to a device it does at all of them. Contracts see the finite map of the
//! rows and the subchannels that have a place. `room` gives a subchannel a place, `add` a place and
//! a row. No other call may ask for memory. `put` needs a place, and `take` leaves it, so what was
//! taken out can always be put back.
//!
//! Begin with `grid.rt`, then `levels.rt` for the lists. What names no source is our own.
#![tactic(auto)]

mod grid;
mod level;
mod levels;

pub use grid::Grid;
