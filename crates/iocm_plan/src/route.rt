ghost use Rattle.std.specs.Prelude.{◌≡◌};
ghost use Rattle.std.specs.Option.{option_and_then, option_copied, option_eq, option_map};
ghost use Rattle.iocm_record.specs.Meaning.{device_of, path_of, unit_of};
ghost use Rattle.iocm_sight.specs.Connected.{as_path, as_unit, has_path};
ghost use Rattle.iocm_plan.specs.Routes as meaning;
ghost use Rattle.iocm_plan.specs.Sides.{side_of};

use crate::side::Side;
use iocm_difference::are_same_operands;
use iocm_record::{DeviceFields, PathFields, Record, RecordBody, UnitFields};
use iocm_types::{Chpid, Css, CssPath, Key, UnitNo};
use iocm_unit_rules::is_on_one_link;

/// Whether a path leads by one route before and after.
pub fn is_one_route(before: &Side<'_>, after: &Side<'_>, path: Chpid) -> bool
    ensures { result ≡ meaning.is_one_route (side_of before.now) (side_of after.now) path }
{
    before.name == after.name
        && is_one_device(before.device, after.device)
        && is_one_path_at(before, after, path)
        && is_one_unit_at(before, after, path)
}

/// Whether a device has one unit address and the same operands.
pub fn is_one_device(before: &DeviceFields, after: &DeviceFields) -> bool
    ensures { result ≡ meaning.is_one_device (device_of before.now) (device_of after.now) }
{
    before.unit_address == after.unit_address
        && are_same_operands(before.lists.carried(), after.lists.carried())
}

/// Whether a path of a number is one before and after, or not there.
fn is_one_path_at(before: &Side<'_>, after: &Side<'_>, path: Chpid) -> bool
    ensures { result ≡ option_eq meaning.is_one_path (meaning.path_at (side_of before.now) path)
        (meaning.path_at (side_of after.now) path) }
{
    match (path_at(before, path), path_at(after, path)) {
        (Some(one), Some(other)) => is_one_path(one, other),
        (None, None) => true,
        _ => false,
    }
}

/// Whether a path is used in one way and carries the same operands.
fn is_one_path(before: &PathFields, after: &PathFields) -> bool
    ensures { result ≡ meaning.is_one_path (path_of before.now) (path_of after.now) }
{
    before.kind == after.kind && are_same_operands(&before.carried, &after.carried)
}

/// The path of a number, if it is there.
fn path_at<'a>(side: &Side<'a>, path: Chpid) -> Option<&'a PathFields>
    ensures { option_map path_of (option_copied result) ≡ meaning.path_at (side_of side.entry.now) path }
{
    path_fields(side.config.get(&Key::Path(side.image.css, path))?)
}

/// The path of a record, if it is that of one.
fn path_fields(entry: &Record) -> Option<&PathFields>
    ensures { option_map path_of (option_copied result) ≡ as_path entry.now }
{
    match entry.body() {
        RecordBody::Path(fields) => Some(fields),
        _ => None,
    }
}

/// Whether the control unit that has a path is one before and after, or not there.
fn is_one_unit_at(before: &Side<'_>, after: &Side<'_>, path: Chpid) -> bool
    ensures { result ≡ option_eq (meaning.is_one_unit before.now.image.css path)
        (meaning.unit_with (side_of before.now) path) (meaning.unit_with (side_of after.now) path) }
{
    match (unit_with(before, path), unit_with(after, path)) {
        (Some(one), Some(other)) => is_one_unit(before.image.css, path, one, other),
        (None, None) => true,
        _ => false,
    }
}

/// Whether a control unit has one number, one CUADD, the same operands, and one link at a path.
fn is_one_unit(css: Css, path: Chpid, before: &UnitFields, after: &UnitFields) -> bool
    ensures { result ≡ meaning.is_one_unit css path (unit_of before.now) (unit_of after.now) }
{
    before.number == after.number
        && before.cuadd.unwrap_or(0) == after.cuadd.unwrap_or(0)
        && are_same_operands(&before.carried, &after.carried)
        && is_on_one_link(&CssPath { css, path }, before, after)
}

/// Of the device's control units that which has a path.
fn unit_with<'a>(side: &Side<'a>, path: Chpid) -> Option<&'a UnitFields>
    ensures { option_map unit_of (option_copied result) ≡ meaning.unit_with (side_of side.entry.now) path }
{
    for unit in side.device.lists.units() {
        if let Some(fields) = unit_at(side, *unit, path) {
            return Some(fields);
        }
    }
    None
}

/// The control unit of a number, if it is there and has a path.
fn unit_at<'a>(side: &Side<'a>, unit: UnitNo, path: Chpid) -> Option<&'a UnitFields>
    ensures { option_map unit_of (option_copied result) ≡ meaning.unit_over (side_of side.entry.now) path unit }
{
    let fields = unit_fields(side.config.get(&Key::Unit(unit))?)?;
    if has_path(side.image.css, path, fields) {
        Some(fields)
    } else {
        None
    }
}

/// The control unit of a record, if it is that of one.
fn unit_fields(entry: &Record) -> Option<&UnitFields>
    ensures { option_map unit_of (option_copied result) ≡ as_unit entry.now }
{
    match entry.body() {
        RecordBody::Unit(fields) => Some(fields),
        _ => None,
    }
}

/// Whether a control unit has a path.
fn has_path(css: Css, path: Chpid, unit: &UnitFields) -> bool
    ensures { result ≡ has_path css path (unit_of unit.now) }
{
    unit.paths
        .as_slice()
        .iter()
        .any(|own| own.css == css && path == own.path)
}
