//! A live subchannel: what it remembers, and how it answers orders and events.
//!
//! `Live` is the record of one subchannel: whether it is enabled, its logical-path mask, its
//! parameter, and its phase. `order` performs an order of an image on it, where the image has a
//! view of its device; `device_begin` and `device_end` are what the device reports. Each is exactly
//! the table of orders of `iocm_model` (`Operation/Orders.antt`), and none takes memory. `Live`,
//! `Order`, `Io` and their parts are those of `iocm_types`.
#![tactic(auto)]

mod code;
mod events;
mod orders;
mod status;

pub use events::{device_begin, device_end};
pub use iocm_types::{Function, Io, Live, Order, Phase, ScswBits, Setting, Stored};
pub use orders::{fresh, order};
pub use status::bits;
