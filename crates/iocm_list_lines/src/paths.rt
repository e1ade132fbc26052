ghost use Rattle.std.specs.Prelude.{◌≡◌, ◌++◌, IfOk, OnOk};
ghost use Rattle.std.specs.List.{flat_map};
ghost use Rattle.serde_json.specs.Written.{compact_text};
ghost use Rattle.iocm_list_lines.specs.Paths as meaning;

use crate::members::{put_carried, put_member, put_word};
use crate::texts::PathText;
use iocm_config::Config;
use iocm_filter::Filters;
use iocm_list::{PathRow, path_rows};
use iocm_record_lines::{put_names, put_units, use_text};
use std::alloc::{AllocError, Global};

/// A line for each of the channel paths that filters leave, in the order of keys.
///
/// `AllocError` (M1): memory ran out.
pub fn path_lines(alloc: Global, filters: &Filters, config: &Config) -> Result<Vec<u8>, AllocError>
    ensures { IfOk result (λ text. text.items ≡ meaning.path_lines filters.now config.now.records) }
{
    let rows = path_rows(alloc, filters, config)?;
    lines_of(alloc, rows.as_slice())
}

fn lines_of(alloc: Global, rows: &[PathRow]) -> Result<Vec<u8>, AllocError>
    ensures { IfOk result (λ text. text.items ≡ flat_map meaning.path_line rows.now) }
{
    let mut text = Vec::new(alloc);
    for row in rows {
        put_line(alloc, &mut text, row)?;
    }
    Ok(text)
}

/// Puts the line of a row.
fn put_line(alloc: Global, text: &mut Vec<u8>, row: &PathRow) -> Result<(), AllocError>
    ensures { OnOk result (text.new.items ≡ text.old.items ++ meaning.path_line row.now) }
{
    put_row(alloc, text, row)?;
    text.push(b'\n')?;
    Ok(())
}

/// Puts the object of a row.
fn put_row(alloc: Global, text: &mut Vec<u8>, row: &PathRow) -> Result<(), AllocError>
    ensures { OnOk result (text.new.items ≡ text.old.items ++ compact_text (meaning.path_value row.now)) }
{
    put_carried(text, b"{\"AID\":", &row.texts.aid)?;
    put_carried(text, b",\"PCHID\":", &row.texts.pchid)?;
    put_carried(text, b",\"PORT\":", &row.texts.port)?;
    put_carried(text, b",\"SWITCH\":", &row.texts.switch)?;
    put_carried(text, b",\"TYPE\":", &row.texts.channel_type)?;
    put_carried(text, b",\"VCHID\":", &row.texts.vchid)?;
    put_member(alloc, text, b",\"css\":", row.css.number())?;
    put_member(alloc, text, b",\"devices\":", row.devices)?;
    text.extend_from_slice(b",\"offline\":")?;
    put_names(text, row.offline.as_slice())?;
    text.extend_from_slice(b",\"online\":")?;
    put_names(text, row.online.as_slice())?;
    put_member(alloc, text, b",\"path\":", PathText(row.number))?;
    text.extend_from_slice(b",\"type\":\"path\",\"units\":")?;
    put_units(alloc, text, row.units.as_slice())?;
    put_word(text, b",\"use\":", use_text(row.kind).as_bytes())?;
    text.push(b'}')?;
    Ok(())
}
