//! What a change of a configuration does to images, in rows and numbers.
//!
//! `impact_of` gives what is told of two configurations, as filters leave it: of each image that is affected how many
//! devices are gone, have come, are changed, lost or interrupted; the rows of images, runs of devices of which the same
//! is told, once for all images with equal rows; and how many devices have each mark, each once whatever the number of
//! images.
//!
//! Laws: the rows of an image, device by device, are all that differ, and its counts are the numbers of devices with
//! each mark; the totals count each device once.
//!
//! Begin with `specs/Marks.antt`, `specs/Rows.antt` and `specs/Impact.antt`. What names no source is our own.
#![tactic(auto)]

mod block;
mod counts;
mod impact;
mod laws;
mod marks;
mod named_image;
mod row;
mod rows;

pub use block::Block;
pub use counts::{Counts, ImageCounts, counts_of};
pub use impact::{Impact, impact_of};
pub use laws::{
    counts_are_rows, devices_are_counted_once, impacts_are_as_worked, rows_are_all_that_differ,
};
pub use marks::{Mark, Marks};
pub use named_image::{NamedImage, named_images};
pub use row::{Row, tells_same};
pub use rows::rows_of;
