ghost use Rattle.std.specs.Prelude.{◌≡◌, map, IfOk};
ghost use Rattle.iocm_words.specs.Table.{cells_of, rows_of};
ghost use Rattle.iocm_list.specs.Cells as meaning;

use crate::path_words::text_word;
use crate::{UnitRow, unit_rows};
use iocm_config::Config;
use iocm_filter::Filters;
use iocm_words::{
    Column, Side, addresses_word, carried_word, count_word, devices_word, paths_word, ranges_word,
    table_text, unit_word,
};
use std::alloc::{AllocError, Global};

/// The columns of the table of control units.
pub const UNIT_COLUMNS: [Column; 7] = [
    Column {
        heading: b"CU",
        side: Side::Left,
    },
    Column {
        heading: b"UNIT",
        side: Side::Left,
    },
    Column {
        heading: b"CUADD",
        side: Side::Left,
    },
    Column {
        heading: b"UNITADD",
        side: Side::Left,
    },
    Column {
        heading: b"PATHS",
        side: Side::Left,
    },
    Column {
        heading: b"DEVICES",
        side: Side::Right,
    },
    Column {
        heading: b"RANGES",
        side: Side::Left,
    },
];

/// The table of the control units that filters leave, in the order of keys.
///
/// `AllocError` (M1): memory ran out.
///
/// Promise: a table of control units has just those that filters leave, as the deck has them.
pub fn unit_table(alloc: Global, filters: &Filters, config: &Config) -> Result<Vec<u8>, AllocError>
    ensures { IfOk result (λ text. text.items ≡ meaning.unit_table filters.now config.now.records) }
{
    let rows = unit_rows(alloc, filters, config)?;
    let cells = cells_of_all(alloc, rows.as_slice())?;
    table_text(alloc, UNIT_COLUMNS.as_slice(), cells.as_slice())
}

fn cells_of_all(alloc: Global, rows: &[UnitRow]) -> Result<Vec<Vec<Vec<u8>>>, AllocError>
    ensures { IfOk result (λ cells. rows_of cells.items ≡ map meaning.unit_cells rows.now) }
{
    let mut cells = Vec::with_capacity(alloc, rows.len())?;
    for row in rows {
        cells.push(unit_cells(alloc, row)?)?;
    }
    Ok(cells)
}

/// The cells of a row, in the order of columns.
///
/// `AllocError` (M1): memory ran out.
pub fn unit_cells(alloc: Global, row: &UnitRow) -> Result<Vec<Vec<u8>>, AllocError>
    ensures { IfOk result (λ cells. cells_of cells.items ≡ meaning.unit_cells row.now) }
{
    let cells = vec![in alloc;
        unit_word(alloc, row.number)?,
        text_word(alloc, &row.unit_type)?,
        cuadd_word(alloc, row.cuadd)?,
        ranges_word(alloc, row.addresses.as_slice())?,
        paths_word(alloc, row.paths.as_slice())?,
        count_word(alloc, row.devices as u64)?,
        devices_word(alloc, row.ranges.as_slice())?,
    ]?;
    Ok(cells)
}

/// A control unit address, if there is one.
fn cuadd_word(alloc: Global, cuadd: Option<u8>) -> Result<Vec<u8>, AllocError>
    ensures { IfOk result (λ word. word.items ≡ meaning.cuadd_word cuadd) }
{
    match cuadd {
        Some(cuadd) => addresses_word(alloc, cuadd, cuadd),
        None => carried_word(alloc, None),
    }
}
