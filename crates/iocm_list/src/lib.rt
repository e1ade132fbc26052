//! The rows of `list`: what a configuration has of a kind, and what filters leave of it.
//!
//! A row is a value: `PathRow` of a channel path, `UnitRow` of a control unit, `DeviceRow` of a run of
//! devices, `ImageRow` of an image. `path_rows` and its like give those that are connected with what
//! filters ask for, in the order of keys; what is connected, and what images see, is told by the crate
//! below, `iocm_sight`. The cells of a row are words; `path_table` and its like are the tables of them.
//!
//! Begin with `specs/PathRows.antt`, `specs/UnitRows.antt`, `specs/DeviceRows.antt`,
//! `specs/ImageRows.antt` and `specs/Cells.antt`. What names no source is our own.
#![tactic(auto)]

mod device_laws;
mod device_list;
mod device_row;
mod device_words;
mod image_list;
mod image_row;
mod image_words;
mod joined;
mod laws;
mod path_row;
mod path_words;
mod texts;
mod unit_row;
mod unit_words;

pub use device_laws::{
    devices_are_listed_as_worked, rows_are_the_devices, tables_of_devices_are_read_again,
};
pub use device_list::device_rows;
pub use device_row::DeviceRow;
pub use device_words::{DEVICE_COLUMNS, device_table};
pub use image_list::image_rows;
pub use image_row::ImageRow;
pub use image_words::{IMAGE_COLUMNS, image_table};
pub use joined::joined_ranges;
pub use laws::{
    cells_are_asked_for, nothing_asked_for_lists_all, ranges_are_the_devices,
    rows_are_listed_as_worked, tables_are_read_again,
};
pub use path_row::{PathRow, PathTexts, path_rows, users_of};
pub use path_words::{PATH_COLUMNS, path_cells, path_table};
pub use texts::carried_text;
pub use unit_row::{UnitRow, unit_rows};
pub use unit_words::{UNIT_COLUMNS, unit_cells, unit_table};
