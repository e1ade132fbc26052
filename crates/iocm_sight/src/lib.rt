//! What is connected with what in a configuration, and what images see of its devices.
//!
//! An image reaches paths, a control unit has paths, a device names control units. `Listing` asks which
//! paths, control units and devices are connected with what filters ask for, by an index of who names
//! whom: so no record is compared with all others.
//!
//! `NamedSight` gives what an image sees of one device after the other, `runs_asked` and `all_runs` the
//! devices in runs of which an image sees the same. So an image is asked once for each run.
//! `seen_counts`, `count_paths` and `all_numbers` count by them.
//!
//! Law: what is seen of a device is the view at its subchannel.
//!
//! Begin with `specs/Connected.antt`, `specs/Seen.antt` and `specs/Counts.antt`. What names no source is
//! our own.
#![tactic(auto)]

mod asked;
mod counts;
mod devices;
mod image_paths;
mod laws;
mod linked;
mod links;
mod listing;
mod runs;
mod seen_by;
mod set_numbers;
mod sight;
mod unit_paths;
mod wanted_rows;

pub use asked::{AskedImage, asked_images};
pub use counts::{SeenCounts, seen_counts};
pub use devices::{DeviceKey, device_key};
pub use image_paths::{count_online, count_paths, reaches_asked, reaches_asked_unit};
pub use laws::{what_is_seen_is_the_view, words_are_as_worked};
pub use linked::linked_paths;
pub use links::{devices_on, units_of_path};
pub use listing::{Listing, wants_each, wants_paths, wants_units};
pub use runs::{DeviceRun, all_runs, runs_asked};
pub use seen_by::SeenBy;
pub use set_numbers::all_numbers;
pub use sight::{NamedSight, images_by, sights_asked};
pub use unit_paths::paths_by;
pub use wanted_rows::wants_image;
