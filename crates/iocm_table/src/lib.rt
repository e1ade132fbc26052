//! One table for everything that is looked up: records by key, numbers by place and by cell, live
//! records by subchannel.
//!
//! A `Table` has rows under keys, in the order of keys. Contracts see the finite map of its rows
//! and the keys that have a place. `room` gives a key a place; besides building it is the only call
//! that may want memory. `put` wants a place and can't run out of memory, and `take` leaves the
//! place, so what was taken out can always be put back. No place is ever lost. The cost of a call
//! grows with the logarithm of the table's size.
//!
//! Begin with `table.rt`, then `rows.rt` for walks.
#![tactic(auto)]

mod build;
mod rows;
mod table;

pub use rows::Rows;
pub use table::Table;
