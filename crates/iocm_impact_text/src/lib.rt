//! What a change of a configuration does to images, as a plan prints it.
//!
//! `put_images` puts the table of the images that are affected behind a text in memory, `put_blocks` images with equal
//! rows and these rows, and `put_totals` the line of totals. `put_image_list` and `run_word` tell images and devices in
//! short.
//!
//! Begin with `specs/RowText.antt` and `specs/Texts.antt`, and with `specs/Examples.antt` for what is printed. All of
//! it is our own.
#![tactic(auto)]

mod block_text;
mod image_list;
mod image_table;
mod laws;
mod listed;
mod row_text;
mod run_text;
mod totals;
mod view_text;

pub use block_text::put_blocks;
pub use image_list::{image_word, put_image_list};
pub use image_table::{IMAGE_COLUMNS, put_images};
pub use laws::texts_are_as_worked;
pub use listed::put_listed;
pub use row_text::put_row;
pub use run_text::run_word;
pub use totals::put_totals;
