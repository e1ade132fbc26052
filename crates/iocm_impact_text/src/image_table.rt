ghost use Rattle.std.specs.Prelude.{◌≡◌, ◌++◌, map, IfOk, OnOk};
ghost use Rattle.iocm_words.specs.Table.{cells_of, rows_of};
ghost use Rattle.iocm_impact_text.specs.Texts as meaning;

use crate::image_list::image_word;
use iocm_impact::ImageCounts;
use iocm_words::{Column, Side, count_word, table_text};
use std::alloc::{AllocError, Global};

/// The columns of the table of images.
pub const IMAGE_COLUMNS: [Column; 10] = [
    Column {
        heading: b"IMAGE",
        side: Side::Left,
    },
    Column {
        heading: b"NAME",
        side: Side::Left,
    },
    Column {
        heading: b"GONE",
        side: Side::Right,
    },
    Column {
        heading: b"CAME",
        side: Side::Right,
    },
    Column {
        heading: b"CHANGED",
        side: Side::Right,
    },
    Column {
        heading: b"SAME",
        side: Side::Right,
    },
    Column {
        heading: b"LOST",
        side: Side::Right,
    },
    Column {
        heading: b"INTERRUPTED",
        side: Side::Right,
    },
    Column {
        heading: b"ONE-PATH",
        side: Side::Right,
    },
    Column {
        heading: b"OFF-ON",
        side: Side::Right,
    },
];

/// Puts the table of the images that are affected behind a text, if there are any.
///
/// `AllocError` (M1): memory ran out.
pub fn put_images(
    text: &mut Vec<u8>,
    alloc: Global,
    images: &[ImageCounts],
) -> Result<(), AllocError>
    ensures { OnOk result (text.new.items ≡ text.old.items ++ meaning.images_table images.now) }
{
    if images.is_empty() {
        return Ok(());
    }
    let table = table_of(alloc, images)?;
    text.extend_from_slice(&table)?;
    Ok(())
}

fn table_of(alloc: Global, images: &[ImageCounts]) -> Result<Vec<u8>, AllocError>
    ensures { IfOk result (λ text. text.items ≡ meaning.table_of images.now) }
{
    let cells = cells_of_all(alloc, images)?;
    table_text(alloc, IMAGE_COLUMNS.as_slice(), cells.as_slice())
}

fn cells_of_all(alloc: Global, images: &[ImageCounts]) -> Result<Vec<Vec<Vec<u8>>>, AllocError>
    ensures { IfOk result (λ cells. rows_of cells.items ≡ map meaning.image_cells images.now) }
{
    let mut cells = Vec::with_capacity(alloc, images.len())?;
    for image in images {
        cells.push(image_cells(alloc, image)?)?;
    }
    Ok(cells)
}

/// The cells of an image, in the order of columns.
fn image_cells(alloc: Global, image: &ImageCounts) -> Result<Vec<Vec<u8>>, AllocError>
    ensures { IfOk result (λ cells. cells_of cells.items ≡ meaning.image_cells image.now) }
{
    let counts = image.counts;
    let cells = vec![in alloc;
        image_word(alloc, &image.image.image)?,
        Vec::from_slice(alloc, image.image.name.as_bytes())?,
        count_word(alloc, counts.gone as u64)?,
        count_word(alloc, counts.came as u64)?,
        count_word(alloc, counts.changed as u64)?,
        count_word(alloc, counts.same as u64)?,
        count_word(alloc, counts.lost as u64)?,
        count_word(alloc, counts.interrupted as u64)?,
        count_word(alloc, counts.one_path as u64)?,
        count_word(alloc, counts.off_and_on as u64)?,
    ]?;
    Ok(cells)
}
