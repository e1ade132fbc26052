ghost use Rattle.std.specs.Prelude.{◌≡◌, map, IfOk};
ghost use Rattle.iocm_words.specs.Table.{rows_of};
ghost use Rattle.iocm_list.specs.DeviceCells as meaning;

use crate::{ImageRow, image_rows};
use iocm_config::Config;
use iocm_filter::Filters;
use iocm_types::Image;
use iocm_words::{Column, Side, table_text};
use std::alloc::{AllocError, Global};

/// The columns of the table of images.
pub const IMAGE_COLUMNS: [Column; 8] = [
    Column {
        heading: b"IMAGE",
        side: Side::Left,
    },
    Column {
        heading: b"NAME",
        side: Side::Left,
    },
    Column {
        heading: b"PATHS",
        side: Side::Right,
    },
    Column {
        heading: b"ONLINE",
        side: Side::Right,
    },
    Column {
        heading: b"DEVICES",
        side: Side::Right,
    },
    Column {
        heading: b"NO-PATH",
        side: Side::Right,
    },
    Column {
        heading: b"ONE-PATH",
        side: Side::Right,
    },
    Column {
        heading: b"NUMBERS",
        side: Side::Left,
    },
];

/// The table of the images that filters leave, in the order of keys.
///
/// `AllocError` (M1): memory ran out.
///
/// Promise: a table of images has just those that filters leave, and how many devices each sees.
pub fn image_table(alloc: Global, filters: &Filters, config: &Config) -> Result<Vec<u8>, AllocError>
    ensures { IfOk result (λ text. text.items ≡ meaning.image_table filters.now config.now.records) }
{
    let rows = image_rows(alloc, filters, config)?;
    let cells = cells_of_all(alloc, rows.as_slice())?;
    table_text(alloc, IMAGE_COLUMNS.as_slice(), cells.as_slice())
}

fn cells_of_all(alloc: Global, rows: &[ImageRow]) -> Result<Vec<Vec<Vec<u8>>>, AllocError>
    ensures { IfOk result (λ cells. rows_of cells.items ≡ map meaning.image_cells rows.now) }
{
    let mut cells = Vec::with_capacity(alloc, rows.len())?;
    for row in rows {
        cells.push(row.cells(alloc)?)?;
    }
    Ok(cells)
}

/// An image by its channel subsystem and its MIF image ID, as `0.1`. Answers the lack of memory alone.
pub(crate) fn image_word(alloc: Global, image: &Image) -> Result<Vec<u8>, AllocError>
    ensures { IfOk result (λ word. word.items ≡ meaning.image_word image.now) }
{
    let (css, mif) = (image.css, image.mif);
    let text = format!(in alloc; "{css}.{mif}")?;
    Ok(text.into_bytes())
}
