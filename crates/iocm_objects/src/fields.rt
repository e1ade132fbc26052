ghost use Rattle.std.specs.Prelude.{◌≡◌, ◌++◌, IfOk, OnOk};
ghost use Rattle.std.specs.Option.{option_copied};
ghost use Rattle.iocm_record.specs.Meaning.{device_of, path_of, unit_of};
ghost use Rattle.iocm_objects.specs.Fields as meaning;

use crate::carried::{put_carried, put_field};
use crate::field::{Field, Value};
use crate::online::names_online;
use iocm_config::Config;
use iocm_record::{DeviceFields, PathFields, Record, RecordBody, UnitFields};
use iocm_sight::linked_paths;
use iocm_types::{Key, List, Name, Text};
use iocm_values::set_of_names;
use iocm_words::ranges_word;
use std::alloc::{AllocError, Global};

/// The fields of the record under a key, in the order in which they are told; none where there is no record. To a path
/// belong the images that are online at it.
///
/// `AllocError` (M1): memory ran out.
pub fn fields_in(alloc: Global, config: &Config, key: &Key) -> Result<List<Field>, AllocError>
    ensures { IfOk result (λ fields. fields ≡ meaning.fields_in config.now.records key.now) }
{
    let mut fields = Vec::new(alloc);
    if let Some(entry) = config.get(key) {
        put_fields(&mut fields, alloc, config, entry)?;
    }
    Ok(List::from_vec(fields))
}

/// Puts the fields of a record behind others.
fn put_fields(
    fields: &mut Vec<Field>,
    alloc: Global,
    config: &Config,
    entry: &Record,
) -> Result<(), AllocError>
    ensures { OnOk result (fields.new.items
        ≡ fields.old.items ++ meaning.fields_of config.now.records entry.now) }
{
    match entry.body() {
        RecordBody::Id(carried) => put_carried(fields, alloc, carried),
        RecordBody::Resource(carried) => put_carried(fields, alloc, carried),
        RecordBody::Image(_, _, name) => {
            let name = Text::from_slice(alloc, name.as_bytes())?;
            put_field(fields, alloc, b"name", Value::Text(name))
        }
        RecordBody::Limit(_, _, limit) => {
            let limit = *limit;
            let text = format!(in alloc; "{limit}")?;
            let limit = Text::from_vec(text.into_bytes());
            put_field(fields, alloc, b"limit", Value::Text(limit))
        }
        RecordBody::Path(path) => put_path(fields, alloc, config, path),
        RecordBody::Unit(unit) => put_unit(fields, alloc, unit),
        RecordBody::Device(device) => put_device(fields, alloc, device),
        RecordBody::Online(_, _, _) => Ok(()),
    }
}

/// Puts the fields of a path behind others.
fn put_path(
    fields: &mut Vec<Field>,
    alloc: Global,
    config: &Config,
    path: &PathFields,
) -> Result<(), AllocError>
    ensures { OnOk result (fields.new.items
        ≡ fields.old.items ++ meaning.all_path_fields config.now.records (path_of path.now)) }
{
    let online = names_online(alloc, config, &Key::Path(path.css, path.number))?;
    put_field(fields, alloc, b"use", Value::Use(path.kind))?;
    let names = Vec::from_slice(alloc, &online)?;
    put_field(
        fields,
        alloc,
        b"online",
        Value::Names(List::from_vec(names)),
    )?;
    put_users(fields, alloc, path)?;
    put_access(fields, alloc, &path.access, &online)?;
    put_carried(fields, alloc, &path.carried)
}

/// Puts the images that may use a path behind others, in the order of their names.
fn put_users(fields: &mut Vec<Field>, alloc: Global, path: &PathFields) -> Result<(), AllocError>
    ensures { OnOk result (fields.new.items ≡ fields.old.items ++ meaning.user_fields (path_of path.now)) }
{
    let mut names = Vec::from_slice(alloc, path.access.as_slice())?;
    names.extend_from_slice(path.candidates.as_slice())?;
    let users = List::from_vec(set_of_names(names)?);
    put_field(fields, alloc, b"candidates", Value::Names(users))
}

/// Puts the access list of a path to which these images are online behind others.
fn put_access(
    fields: &mut Vec<Field>,
    alloc: Global,
    access: &List<Name>,
    online: &[Name],
) -> Result<(), AllocError>
    ensures { OnOk result (fields.new.items ≡ fields.old.items ++ meaning.access_fields access.now online.now) }
{
    let names = access.copy_in(alloc)?;
    let value = if access.as_slice() == online {
        Value::AccessOnline(names)
    } else {
        Value::Access(names)
    };
    put_field(fields, alloc, b"access", value)
}

/// Puts the fields of a control unit behind others.
fn put_unit(fields: &mut Vec<Field>, alloc: Global, unit: &UnitFields) -> Result<(), AllocError>
    ensures { OnOk result (fields.new.items ≡ fields.old.items ++ meaning.all_unit_fields (unit_of unit.now)) }
{
    let paths = List::from_vec(linked_paths(alloc, unit)?);
    put_field(fields, alloc, b"PATH", Value::Paths(paths))?;
    let ranges = ranges_word(alloc, unit.ranges.as_slice())?;
    put_field(
        fields,
        alloc,
        b"UNITADD",
        Value::Text(Text::from_vec(ranges)),
    )?;
    put_cuadd(fields, alloc, unit.cuadd)?;
    put_carried(fields, alloc, &unit.carried)
}

/// Puts the control unit address behind others, if there is one.
fn put_cuadd(fields: &mut Vec<Field>, alloc: Global, cuadd: Option<u8>) -> Result<(), AllocError>
    ensures { OnOk result (fields.new.items ≡ fields.old.items ++ meaning.cuadd_fields cuadd) }
{
    let Some(cuadd) = cuadd else {
        return Ok(());
    };
    let text = format!(in alloc; "{cuadd:02X}")?;
    put_field(
        fields,
        alloc,
        b"CUADD",
        Value::Text(Text::from_vec(text.into_bytes())),
    )
}

/// Puts the fields of a device behind others.
fn put_device(
    fields: &mut Vec<Field>,
    alloc: Global,
    device: &DeviceFields,
) -> Result<(), AllocError>
    ensures { OnOk result (fields.new.items
        ≡ fields.old.items ++ meaning.all_device_fields (device_of device.now)) }
{
    let units = List::from_vec(Vec::from_slice(alloc, device.lists.units())?);
    put_field(fields, alloc, b"CUNUMBR", Value::Units(units))?;
    put_field(
        fields,
        alloc,
        b"UNITADD",
        Value::Address(device.unit_address),
    )?;
    put_candidates(fields, alloc, device.lists.candidates())?;
    put_carried(fields, alloc, device.lists.carried())
}

/// Puts the candidates of a device behind others, if it lists them.
fn put_candidates(
    fields: &mut Vec<Field>,
    alloc: Global,
    candidates: Option<&List<Name>>,
) -> Result<(), AllocError>
    ensures { OnOk result (fields.new.items
        ≡ fields.old.items ++ meaning.candidate_fields (option_copied candidates.entry)) }
{
    match candidates {
        None => Ok(()),
        Some(names) => {
            let names = names.copy_in(alloc)?;
            put_field(fields, alloc, b"PARTITION", Value::Candidates(names))
        }
    }
}
