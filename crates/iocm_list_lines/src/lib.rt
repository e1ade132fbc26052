//! Lines of JSON of what `list` lists, for programs that read what the program tells.
//!
//! `path_lines`, `unit_lines`, `device_lines` and `image_lines` give a line for each channel path, control
//! unit, run of devices or image that filters leave. The rows are those of the tables of `iocm_list`.
//!
//! The layer above may rely on this: each line is exactly the text of its row's value, and each value
//! is read back from its text. What a statement carries along comes out as a string that each reader
//! of JSON takes, whatever bytes it has.
//!
//! Begin with `specs/Paths.antt` and its like, and `specs/Examples.antt`, then `paths.rt`. What names no
//! source is our own.
#![tactic(auto)]

mod devices;
mod images;
mod laws;
mod members;
mod paths;
mod seen;
mod texts;
mod units;
mod unlinked;

pub use devices::device_lines;
pub use images::image_lines;
pub use laws::{lines_are_as_worked, lines_are_read_back};
pub use paths::path_lines;
pub use units::unit_lines;
