ghost use Rattle.std.specs.Prelude.{◌≡◌, ◌++◌, map, IfOk, OnOk};
ghost use Rattle.iocm_words.specs.Table.{cells_of, rows_of};
ghost use Rattle.iocm_words.specs.Words.{carried_word, word_of};
ghost use Rattle.iocm_list.specs.Cells as meaning;

use crate::{PathRow, PathTexts, path_rows};
use iocm_config::Config;
use iocm_filter::Filters;
use iocm_types::{PathKind, Text};
use iocm_words::{
    Column, Side, carried_word, count_word, names_word, path_word, table_text, units_word,
};
use std::alloc::{AllocError, Global};

/// The columns of the table of channel paths.
pub const PATH_COLUMNS: [Column; 9] = [
    Column {
        heading: b"CHPID",
        side: Side::Left,
    },
    Column {
        heading: b"TYPE",
        side: Side::Left,
    },
    Column {
        heading: b"PCHID",
        side: Side::Left,
    },
    Column {
        heading: b"SWITCH",
        side: Side::Left,
    },
    Column {
        heading: b"USE",
        side: Side::Left,
    },
    Column {
        heading: b"DEVICES",
        side: Side::Right,
    },
    Column {
        heading: b"ONLINE",
        side: Side::Left,
    },
    Column {
        heading: b"OFFLINE",
        side: Side::Left,
    },
    Column {
        heading: b"CU",
        side: Side::Left,
    },
];

/// The table of the channel paths that filters leave, in the order of keys.
///
/// `AllocError` (M1): memory ran out.
///
/// Promise: a table of channel paths has just those that filters leave, as the deck has them.
pub fn path_table(alloc: Global, filters: &Filters, config: &Config) -> Result<Vec<u8>, AllocError>
    ensures { IfOk result (λ text. text.items ≡ meaning.path_table filters.now config.now.records) }
{
    let rows = path_rows(alloc, filters, config)?;
    let cells = cells_of_all(alloc, rows.as_slice())?;
    table_text(alloc, PATH_COLUMNS.as_slice(), cells.as_slice())
}

fn cells_of_all(alloc: Global, rows: &[PathRow]) -> Result<Vec<Vec<Vec<u8>>>, AllocError>
    ensures { IfOk result (λ cells. rows_of cells.items ≡ map meaning.path_cells rows.now) }
{
    let mut cells = Vec::with_capacity(alloc, rows.len())?;
    for row in rows {
        cells.push(path_cells(alloc, row)?)?;
    }
    Ok(cells)
}

/// The cells of a row, in the order of columns.
///
/// `AllocError` (M1): memory ran out.
pub fn path_cells(alloc: Global, row: &PathRow) -> Result<Vec<Vec<u8>>, AllocError>
    ensures { IfOk result (λ cells. cells_of cells.items ≡ meaning.path_cells row.now) }
{
    let cells = vec![in alloc;
        path_word(alloc, row.css, row.number)?,
        text_word(alloc, &row.texts.channel_type)?,
        channel_word(alloc, &row.texts)?,
        text_word(alloc, &row.texts.switch)?,
        use_word(alloc, row.kind)?,
        count_word(alloc, row.devices as u64)?,
        names_word(alloc, row.online.as_slice())?,
        names_word(alloc, row.offline.as_slice())?,
        units_word(alloc, row.units.as_slice())?,
    ]?;
    Ok(cells)
}

/// A text that a statement carries, if it is there.
pub(crate) fn text_word(alloc: Global, text: &Option<Text>) -> Result<Vec<u8>, AllocError>
    ensures { IfOk result (λ word. word.items ≡ carried_word text.now) }
{
    match text {
        Some(text) => carried_word(alloc, Some(text.as_slice())),
        None => carried_word(alloc, None),
    }
}

/// How images use a path.
fn use_word(alloc: Global, kind: PathKind) -> Result<Vec<u8>, AllocError>
    ensures { IfOk result (λ word. word.items ≡ meaning.use_word kind) }
{
    match kind {
        PathKind::Dedicated => Vec::from_slice(alloc, b"DEDICATED"),
        PathKind::Shared => Vec::from_slice(alloc, b"SHARED"),
        PathKind::Reconfigurable => Vec::from_slice(alloc, b"REC"),
    }
}

/// The physical channel of a path, else the virtual one, else the adapter with its port.
fn channel_word(alloc: Global, texts: &PathTexts) -> Result<Vec<u8>, AllocError>
    ensures { IfOk result (λ word. word.items ≡ meaning.channel_word texts.now) }
{
    match (&texts.pchid, &texts.vchid) {
        (Some(pchid), _) => carried_word(alloc, Some(pchid.as_slice())),
        (None, Some(vchid)) => labelled_word(alloc, b"VCHID=", vchid),
        (None, None) => adapter_word(alloc, &texts.aid, &texts.port),
    }
}

/// The adapter with its port.
fn adapter_word(
    alloc: Global,
    aid: &Option<Text>,
    port: &Option<Text>,
) -> Result<Vec<u8>, AllocError>
    ensures { IfOk result (λ word. word.items ≡ meaning.adapter_word aid.now port.now) }
{
    let Some(aid) = aid else {
        return carried_word(alloc, None);
    };
    let mut word = labelled_word(alloc, b"AID=", aid)?;
    put_port(&mut word, alloc, port)?;
    Ok(word)
}

/// Puts a port, if there is one, behind its adapter.
fn put_port(word: &mut Vec<u8>, alloc: Global, port: &Option<Text>) -> Result<(), AllocError>
    ensures { OnOk result (word.new.items ≡ word.old.items ++ meaning.port_part port.now) }
{
    if let Some(port) = port {
        let part = labelled_word(alloc, b"/", port)?;
        word.extend_from_slice(part.as_slice())?;
    }
    Ok(())
}

/// A text behind what it is.
fn labelled_word(alloc: Global, label: &[u8], text: &Text) -> Result<Vec<u8>, AllocError>
    ensures { IfOk result (λ word. word.items ≡ label.now ++ word_of text.now) }
{
    let mut word = Vec::from_slice(alloc, label)?;
    let part = carried_word(alloc, Some(text.as_slice()))?;
    word.extend_from_slice(part.as_slice())?;
    Ok(word)
}
