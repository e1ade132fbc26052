ghost use Rattle.std.specs.Prelude.{◌≡◌};
ghost use Rattle.std.specs.Option.{option_and_then, option_copied, option_eq, option_map};
ghost use Rattle.iocm_record.specs.Meaning.{device_of, path_of, unit_of};
ghost use Rattle.iocm_sight.specs.Connected.{as_path, as_unit, has_path};
ghost use Rattle.iocm_plan.specs.Routes as meaning;
ghost use Rattle.iocm_plan.specs.Sides.{side_of};

use iocm_difference::are_same_operands;
use iocm_plan::Side;
use iocm_record::{DeviceFields, PathFields, Record, RecordBody, UnitFields};
use iocm_types::{Chpid, Css, Key, UnitNo};

/// Whether a device has one unit address and the same operands.
pub(crate) fn is_one_device(before: &DeviceFields, after: &DeviceFields) -> bool
    ensures { result ≡ meaning.is_one_device (device_of before.now) (device_of after.now) }
{
    before.unit_address == after.unit_address
        && are_same_operands(before.lists.carried(), after.lists.carried())
}

/// Whether a path of a number is one before and after, or not there.
pub(crate) fn is_one_path_at(before: &Side<'_>, after: &Side<'_>, path: Chpid) -> bool
    ensures { result ≡ option_eq meaning.is_one_path (meaning.path_at (side_of before.now) path)
        (meaning.path_at (side_of after.now) path) }
{
    match (path_at(before, path), path_at(after, path)) {
        (Some(one), Some(other)) => is_one_path(one, other),
        (None, None) => true,
        _ => false,
    }
}

/// Whether a path is used in one way and carries the same operands.
fn is_one_path(before: &PathFields, after: &PathFields) -> bool
    ensures { result ≡ meaning.is_one_path (path_of before.now) (path_of after.now) }
{
    before.kind == after.kind && are_same_operands(&before.carried, &after.carried)
}

/// The path of a number, if it is there.
fn path_at<'a>(side: &Side<'a>, path: Chpid) -> Option<&'a PathFields>
    ensures { option_map path_of (option_copied result) ≡ meaning.path_at (side_of side.entry.now) path }
{
    path_fields(side.config.get(&Key::Path(side.image.css, path))?)
}

/// The path of a record, if it is that of one.
fn path_fields(entry: &Record) -> Option<&PathFields>
    ensures { option_map path_of (option_copied result) ≡ as_path entry.now }
{
    match entry.body() {
        RecordBody::Path(fields) => Some(fields),
        _ => None,
    }
}

/// Of the device's control units that which has a path.
pub(crate) fn unit_with<'a>(side: &Side<'a>, path: Chpid) -> Option<&'a UnitFields>
    ensures { option_map unit_of (option_copied result) ≡ meaning.unit_with (side_of side.entry.now) path }
{
    for unit in side.device.lists.units() {
        if let Some(fields) = unit_at(side, *unit, path) {
            return Some(fields);
        }
    }
    None
}

/// The control unit of a number, if it is there and has a path.
fn unit_at<'a>(side: &Side<'a>, unit: UnitNo, path: Chpid) -> Option<&'a UnitFields>
    ensures { option_map unit_of (option_copied result) ≡ meaning.unit_over (side_of side.entry.now) path unit }
{
    let fields = unit_fields(side.config.get(&Key::Unit(unit))?)?;
    if has_path(side.image.css, path, fields) {
        Some(fields)
    } else {
        None
    }
}

/// The control unit of a record, if it is that of one.
fn unit_fields(entry: &Record) -> Option<&UnitFields>
    ensures { option_map unit_of (option_copied result) ≡ as_unit entry.now }
{
    match entry.body() {
        RecordBody::Unit(fields) => Some(fields),
        _ => None,
    }
}

/// Whether a control unit has a path.
fn has_path(css: Css, path: Chpid, unit: &UnitFields) -> bool
    ensures { result ≡ has_path css path (unit_of unit.now) }
{
    unit.paths
        .as_slice()
        .iter()
        .any(|own| own.css == css && path == own.path)
}
