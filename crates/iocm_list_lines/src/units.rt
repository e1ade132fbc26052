ghost use Rattle.std.specs.Prelude.{◌≡◌, ◌++◌, IfOk, OnOk};
ghost use Rattle.std.specs.List.{flat_map};
ghost use Rattle.serde_json.specs.Written.{compact_text};
ghost use Rattle.iocm_record_lines.specs.Lists.{list_of};
ghost use Rattle.iocm_list_lines.specs.Units as meaning;

use crate::members::{put_carried, put_member};
use crate::texts::CuaddText;
use iocm_config::Config;
use iocm_filter::Filters;
use iocm_list::{UnitRow, unit_rows};
use iocm_record_lines::{UnitText, put_comma, put_paths, put_quoted, put_ranges};
use iocm_words::{DeviceNumbers, devices_word};
use std::alloc::{AllocError, Global};

/// A line for each of the control units that filters leave, in the order of keys.
///
/// `AllocError` (M1): memory ran out.
pub fn unit_lines(alloc: Global, filters: &Filters, config: &Config) -> Result<Vec<u8>, AllocError>
    ensures { IfOk result (λ text. text.items ≡ meaning.unit_lines filters.now config.now.records) }
{
    let rows = unit_rows(alloc, filters, config)?;
    lines_of(alloc, rows.as_slice())
}

fn lines_of(alloc: Global, rows: &[UnitRow]) -> Result<Vec<u8>, AllocError>
    ensures { IfOk result (λ text. text.items ≡ flat_map meaning.unit_line rows.now) }
{
    let mut text = Vec::new(alloc);
    for row in rows {
        put_line(alloc, &mut text, row)?;
    }
    Ok(text)
}

/// Puts the line of a row.
fn put_line(alloc: Global, text: &mut Vec<u8>, row: &UnitRow) -> Result<(), AllocError>
    ensures { OnOk result (text.new.items ≡ text.old.items ++ meaning.unit_line row.now) }
{
    put_row(alloc, text, row)?;
    text.push(b'\n')?;
    Ok(())
}

/// Puts the object of a row.
fn put_row(alloc: Global, text: &mut Vec<u8>, row: &UnitRow) -> Result<(), AllocError>
    ensures { OnOk result (text.new.items ≡ text.old.items ++ compact_text (meaning.unit_value row.now)) }
{
    put_carried(text, b"{\"UNIT\":", &row.unit_type)?;
    put_member(alloc, text, b",\"cuadd\":", CuaddText(row.cuadd))?;
    put_member(alloc, text, b",\"devices\":", row.devices)?;
    text.extend_from_slice(b",\"paths\":")?;
    put_paths(alloc, text, row.paths.as_slice())?;
    text.extend_from_slice(b",\"ranges\":")?;
    put_devices(alloc, text, row.ranges.as_slice())?;
    put_member(
        alloc,
        text,
        b",\"type\":\"unit\",\"unit\":",
        UnitText(row.number),
    )?;
    text.extend_from_slice(b",\"unitadd\":")?;
    put_ranges(alloc, text, row.addresses.as_slice())?;
    text.push(b'}')?;
    Ok(())
}

/// Puts a list of ranges of devices.
fn put_devices(
    alloc: Global,
    text: &mut Vec<u8>,
    ranges: &[DeviceNumbers],
) -> Result<(), AllocError>
    ensures { OnOk result (text.new.items ≡ text.old.items
        ++ compact_text (list_of meaning.devices_value ranges.now)) }
{
    text.push(b'[')?;
    let mut later = false;
    for range in ranges {
        put_comma(text, later)?;
        put_range(alloc, text, range)?;
        later = true;
    }
    text.push(b']')?;
    Ok(())
}

/// Puts a range of devices.
fn put_range(alloc: Global, text: &mut Vec<u8>, range: &DeviceNumbers) -> Result<(), AllocError>
    ensures { OnOk result (text.new.items ≡ text.old.items
        ++ compact_text (meaning.devices_value range.now)) }
{
    let word = devices_word(alloc, [*range].as_slice())?;
    put_quoted(text, word.as_slice())
}
