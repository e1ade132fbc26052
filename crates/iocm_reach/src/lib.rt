//! Which images reach a channel path, and to which it is online, kept in a table.
//!
//! A `ReachTable` tells of each path and each image of its channel subsystem, by MIF image ID,
//! whether the image reaches the path and whether the path is online to it. `ReachTable::new` makes
//! that of a configuration. `renew` makes it that of the configuration after the record of one key
//! has changed, without memory. So no view needs the records of its paths. A `ReachedImage` gives
//! what an image sees of devices whose first eight paths are known, and a `ReachedCell` what all
//! images see at one number cell. A `ReachedWalk` gives the views of many subchannels, one after the
//! other.
//!
//! What the layer above may rely on: the table can be renewed after whatever record is put, changed
//! or taken away (`changes_can_be_followed`). It is that of the configuration then (`IsReachOf`),
//! and views are those of the model. Begin with `specs/Reached.antt` and `specs/Tabled.antt`, then `table.rt`
//! and `cell.rt`. What names no source is our own.
#![tactic(auto)]

mod candidates;
mod cell;
mod image;
mod image_path;
mod images;
mod laws;
mod listed;
mod names;
mod online;
mod path_masks;
mod range;
mod reaching;
mod rows;
mod table;
mod walk;

pub use cell::ReachedCell;
pub use image::ReachedImage;
pub use image_path::ImagePath;
pub use laws::{a_small_machine_by_hand, changes_can_be_followed};
pub use table::ReachTable;
pub use walk::ReachedWalk;
