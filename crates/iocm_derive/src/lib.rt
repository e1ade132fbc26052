//! What follows from a configuration and its numbers: path lists, sight, masks and views.
//!
//! Each function reads a `Config`, and `view_at` its `Numbers` too, and answers exactly what its
//! definition says. None can run out of memory. `view_at` is what an image sees at one
//! subchannel; `path_list`, `sees`, `pim` and `pam` are its parts. `DeviceWalk` finds many devices,
//! one after the other. `ImageSight` gives the views of one image at many devices. It keeps such a
//! walk, tables of the image's paths, and what it sees by the last device's control units.
//! `ImageNames` gives the names of many images, one after the other. Views by a table of who reaches
//! which path are in `iocm_reach`.
//!
//! Begin with `view.rt`, then `reach.rt` for what both ways share.
#![tactic(auto)]

mod device_walk;
mod image_names;
mod image_sight;
mod lookup;
mod masks;
mod path_tables;
mod paths;
mod reach;
mod reaching;
mod sight;
mod units_view;
mod view;

pub use device_walk::DeviceWalk;
pub use image_names::ImageNames;
pub use image_sight::ImageSight;
pub use lookup::{lists_image, name_of_image};
pub use masks::{pam, pim};
pub use paths::{path_list, paths_of_device};
pub use sight::sees;
pub use view::{image_view, view_at};
