ghost use Rattle.std.specs.Prelude.{◌≡◌, ◌+◌, ◌-◌, ◌++◌, IfOk, OnOk};
ghost use Rattle.std.specs.List.{flat_map};
ghost use Rattle.serde_json.specs.Written.{compact_text};
ghost use Rattle.iocm_list_lines.specs.Devices as meaning;

use crate::members::{put_carried, put_member};
use crate::seen::put_images;
use crate::texts::{AddressText, DeviceText};
use crate::unlinked::put_paths;
use iocm_config::Config;
use iocm_filter::Filters;
use iocm_list::{DeviceRow, device_rows};
use iocm_record_lines::put_units;
use iocm_types::DevNo;
use std::alloc::{AllocError, Global};

/// A line for each run of the devices that filters leave, in the order of keys.
///
/// `AllocError` (M1): memory ran out.
pub fn device_lines(
    alloc: Global,
    filters: &Filters,
    config: &Config,
) -> Result<Vec<u8>, AllocError>
    ensures { IfOk result (λ text. text.items ≡ meaning.device_lines filters.now config.now.records) }
{
    let rows = device_rows(alloc, filters, config)?;
    lines_of(alloc, rows.as_slice())
}

fn lines_of(alloc: Global, rows: &[DeviceRow]) -> Result<Vec<u8>, AllocError>
    ensures { IfOk result (λ text. text.items ≡ flat_map meaning.device_line rows.now) }
{
    let mut text = Vec::new(alloc);
    for row in rows {
        put_line(alloc, &mut text, row)?;
    }
    Ok(text)
}

/// Puts the line of a row.
fn put_line(alloc: Global, text: &mut Vec<u8>, row: &DeviceRow) -> Result<(), AllocError>
    ensures { OnOk result (text.new.items ≡ text.old.items ++ meaning.device_line row.now) }
{
    put_row(alloc, text, row)?;
    text.push(b'\n')?;
    Ok(())
}

/// Puts the object of a row.
fn put_row(alloc: Global, text: &mut Vec<u8>, row: &DeviceRow) -> Result<(), AllocError>
    ensures { OnOk result (text.new.items ≡ text.old.items ++ compact_text (meaning.device_value row.now)) }
{
    let last = last_of(row);
    put_carried(text, b"{\"UNIT\":", &row.device_type)?;
    put_member(alloc, text, b",\"address\":", AddressText(row.unit_address))?;
    put_member(alloc, text, b",\"count\":", row.count)?;
    put_member(alloc, text, b",\"first\":", DeviceText(row.first))?;
    text.extend_from_slice(b",\"images\":")?;
    put_images(alloc, text, row.images.as_slice())?;
    put_member(alloc, text, b",\"last\":", DeviceText(last))?;
    text.extend_from_slice(b",\"paths\":")?;
    put_paths(alloc, text, row.paths.as_slice())?;
    put_member(alloc, text, b",\"set\":", row.set.number())?;
    text.extend_from_slice(b",\"type\":\"devices\",\"units\":")?;
    put_units(alloc, text, row.units.as_slice())?;
    text.push(b'}')?;
    Ok(())
}

/// The last device of a row.
fn last_of(row: &DeviceRow) -> DevNo
    ensures { result ≡ row.now.first + row.now.count - 1 }
{
    let last = usize::from(row.first.number()) + row.count - 1;
    DevNo::new(last as u16)
}
