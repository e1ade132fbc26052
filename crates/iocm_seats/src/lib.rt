//! Seats: what a machine keeps at each of its subchannels, the view and the live record.
//!
//! `Seats` has them all. Contracts see the finite map of the seats, and the subchannels that have a
//! place; `seats.rt` alone knows in what they are kept, and `kept_seat.rt` in which bytes.
//! `open_seats` makes them of a configuration and its numbers. When a change of these is tried,
//! `list_changes` says at which subchannels another view is seen, `first_not_quiet` which of them is
//! the first that isn't quiet, and `settle_all` gives each the seat that it has afterwards, without
//! memory. `exchange` does the same for a change that is taken back and knows beforehand which seats
//! go and which live records come.
//!
//! What the layer above may rely on: after either the seats show what is seen now and have the live
//! records after the edit (`settled_seats_show`, `exchanged_seats_show`). Begin with
//! `specs/Seated.antt`, `seats.rt` and `specs/Changes.antt`. What names no source is our own.
#![tactic(auto)]

mod changes;
mod enabled_phase;
mod exchanging;
mod image_keys;
mod image_subsystems;
mod kept_seat;
mod laws;
mod met;
mod opening;
mod own_sights;
mod seat;
mod seats;
mod set_places;
mod settling;
mod subsystem_cells;
mod subsystem_sights;
mod taken_cell;
mod view_change;
mod word;

pub use changes::{Altered, Tried, list_changes};
pub use exchanging::exchange;
pub use kept_seat::KeptSeat;
pub use laws::{exchanged_seats_show, settled_seats_show};
pub use met::{first_not_quiet, list_left};
pub use opening::open_seats;
pub use seat::Seat;
pub use seats::Seats;
pub use settling::{make_places, settle_all};
pub use view_change::ViewChange;
