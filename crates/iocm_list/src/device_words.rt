ghost use Rattle.std.specs.Prelude.{◌≡◌, ◌+◌, ◌-◌, ◌<◌, ◌≤◌, map, length, IfOk};
ghost use Rattle.iocm_model.specs.Machine.Configuration.{images_of};
ghost use Rattle.iocm_words.specs.Paths.{paths_word};
ghost use Rattle.iocm_types.specs.Print.{hex2};
ghost use Rattle.iocm_words.specs.Ranges.{devices_word, from_to};
ghost use Rattle.iocm_words.specs.Table.{rows_of};
ghost use Rattle.iocm_list.specs.DeviceCells as meaning;

use crate::{DeviceRow, device_rows};
use iocm_config::Config;
use iocm_filter::Filters;
use iocm_record::RecordBody;
use iocm_sight::SeenBy;
use iocm_types::{CssPath, DevNo, SetNo};
use iocm_words::{
    Column, DeviceNumbers, ImagePaths, LinkedPath, Side, addresses_word, all_images_word,
    devices_word, images_word, paths_word, table_text,
};
use std::alloc::{AllocError, Global};

/// The columns of the table of devices.
pub const DEVICE_COLUMNS: [Column; 7] = [
    Column {
        heading: b"DEVICE",
        side: Side::Left,
    },
    Column {
        heading: b"COUNT",
        side: Side::Right,
    },
    Column {
        heading: b"UNIT",
        side: Side::Left,
    },
    Column {
        heading: b"CU",
        side: Side::Left,
    },
    Column {
        heading: b"UNITADD",
        side: Side::Left,
    },
    Column {
        heading: b"PATHS",
        side: Side::Left,
    },
    Column {
        heading: b"IMAGES",
        side: Side::Left,
    },
];

/// The table of the devices that filters leave, runs of them in the order of keys.
///
/// `AllocError` (M1): memory ran out.
///
/// Promise: a table of devices has just those that filters leave, and what each image sees of them.
pub fn device_table(
    alloc: Global,
    filters: &Filters,
    config: &Config,
) -> Result<Vec<u8>, AllocError>
    ensures { IfOk result (λ text. text.items ≡ meaning.device_table filters.now config.now.records) }
{
    let rows = device_rows(alloc, filters, config)?;
    let cells = cells_of_all(alloc, rows.as_slice(), count_images(config))?;
    table_text(alloc, DEVICE_COLUMNS.as_slice(), cells.as_slice())
}

fn cells_of_all(
    alloc: Global,
    rows: &[DeviceRow],
    all: usize,
) -> Result<Vec<Vec<Vec<u8>>>, AllocError>
    ensures { IfOk result (λ cells. rows_of cells.items ≡ map (meaning.device_cells all) rows.now) }
{
    let mut cells = Vec::with_capacity(alloc, rows.len())?;
    for row in rows {
        cells.push(row.cells(alloc, all)?)?;
    }
    Ok(cells)
}

/// How many images a configuration has.
fn count_images(config: &Config) -> usize
    ensures { result ≡ length (images_of config.now.records) }
{
    let mut count = 0;
    for (_, entry) in config.walk() {
        if let RecordBody::Image(_, _, _) = entry.body() {
            count += 1;
        }
    }
    count
}

/// So many devices from a number on. Answers the lack of memory alone.
pub(crate) fn range_word(
    alloc: Global,
    set: SetNo,
    first: DevNo,
    count: usize,
) -> Result<Vec<u8>, AllocError>
    requires some { 0 < count }
    requires fits { first + count ≤ 65536 }
    ensures { IfOk result
        (λ word. word.items ≡ devices_word (record { set = set; first = first; last = first + count - 1 })) }
{
    let last = usize::from(first.number()) + count - 1;
    let devices = DeviceNumbers {
        set,
        first,
        last: DevNo::new(last as u16),
    };
    devices_word(alloc, [devices].as_slice())
}

/// So many unit addresses from one on. Answers the lack of memory alone.
pub(crate) fn addresses_from(alloc: Global, first: u8, count: usize) -> Result<Vec<u8>, AllocError>
    requires some { 0 < count }
    requires fits { first + count ≤ 256 }
    ensures { IfOk result (λ word. word.items ≡ from_to hex2 first (first + count - 1)) }
{
    let last = usize::from(first) + count - 1;
    addresses_word(alloc, first, last as u8)
}

/// Paths by channel subsystem, without links. Answers the lack of memory alone.
pub(crate) fn unlinked_word(alloc: Global, paths: &[CssPath]) -> Result<Vec<u8>, AllocError>
    ensures { IfOk result (λ word. word.items ≡ paths_word (map meaning.unlinked paths.now)) }
{
    let paths = unlinked(alloc, paths)?;
    paths_word(alloc, paths.as_slice())
}

fn unlinked(alloc: Global, paths: &[CssPath]) -> Result<Vec<LinkedPath>, AllocError>
    ensures { IfOk result (λ linked. linked.items ≡ map meaning.unlinked paths.now) }
{
    let mut linked = Vec::with_capacity(alloc, paths.len())?;
    for path in paths {
        linked.push(LinkedPath {
            css: path.css,
            path: path.path,
            link: None,
        })?;
    }
    Ok(linked)
}

/// The images that see devices, of so many that there are. Answers the lack of memory alone.
pub(crate) fn seen_word(alloc: Global, seen: &[SeenBy], all: usize) -> Result<Vec<u8>, AllocError>
    ensures { IfOk result (λ word. word.items ≡ meaning.seen_word all seen.now) }
{
    let images = counts_of(alloc, seen)?;
    if all > 1 && seen.len() == all {
        all_images_word(alloc, images.as_slice())
    } else {
        images_word(alloc, images.as_slice())
    }
}

fn counts_of(alloc: Global, seen: &[SeenBy]) -> Result<Vec<ImagePaths>, AllocError>
    ensures { IfOk result (λ images. images.items ≡ map meaning.counts_of seen.now) }
{
    let mut images = Vec::with_capacity(alloc, seen.len())?;
    for by in seen {
        images.push(ImagePaths {
            online: by.online,
            installed: by.installed,
            name: by.name,
        })?;
    }
    Ok(images)
}
