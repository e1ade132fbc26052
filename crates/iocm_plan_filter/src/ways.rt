ghost use Rattle.std.specs.Prelude.{◌≡◌, ◌||◌, ◌++◌, map, IfOk, OnOk};
ghost use Rattle.std.specs.List.{flat_map};
ghost use Rattle.iocm_types.specs.Key.{key_cmp};
ghost use Rattle.iocm_types.specs.declared.key.Key as key_type;
ghost use Rattle.iocm_types.specs.declared.key.Key.TheVariants as key_of;
ghost use Rattle.iocm_table.specs.Slots.{rows};
ghost use Rattle.iocm_model.specs.Machine.Configuration.{lookup_of};
ghost use Rattle.iocm_filter.specs.Sieves.{has_key};
ghost use Rattle.iocm_plan_filter.specs.Connected as meaning;

use crate::keys::put_keys;
use crate::steps::{device_at, paths_of};
use iocm_config::Config;
use iocm_sight::DeviceKey;
use iocm_table::Table;
use iocm_types::{CssPath, Key, UnitNo};
use std::alloc::{AllocError, Global};

/// The keys of what leads to these devices before or after.
pub(crate) fn ways_to(
    alloc: Global,
    old: &Config,
    new: &Config,
    devices: &[DeviceKey],
) -> Result<Table<Key, ()>, AllocError>
    ensures { IfOk result (λ keys. (k : key_type.Key) → has_key (rows key_cmp keys) k
        ≡ meaning.is_among k (meaning.ways_to (lookup_of old.now.records) (lookup_of new.now.records) devices.now)) }
{
    let mut keys = Table::new(alloc);
    for device in devices {
        put_ways(&mut keys, alloc, old, new, device)?;
    }
    Ok(keys)
}

/// Puts what leads to a device before or after with other keys.
fn put_ways(
    keys: &mut Table<Key, ()>,
    alloc: Global,
    old: &Config,
    new: &Config,
    device: &DeviceKey,
) -> Result<(), AllocError>
    ensures { OnOk result ((k : key_type.Key) → has_key (rows key_cmp keys.new) k
        ≡ (has_key (rows key_cmp keys.old) k || meaning.is_among k (meaning.way_to (lookup_of old.now.records) device.now
        ++ meaning.way_to (lookup_of new.now.records) device.now))) }
{
    let mut ways = Vec::new(alloc);
    put_way(&mut ways, old, device)?;
    put_way(&mut ways, new, device)?;
    put_keys(keys, &ways)
}

/// Puts what leads to a device in a configuration behind other keys.
fn put_way(way: &mut Vec<Key>, config: &Config, device: &DeviceKey) -> Result<(), AllocError>
    ensures { OnOk result (way.new.items
        ≡ way.old.items ++ meaning.way_to (lookup_of config.now.records) device.now) }
{
    let Some(fields) = device_at(config, device.set, device.number) else {
        return Ok(());
    };
    let units = fields.lists.units();
    way.push(Key::Device(device.set, device.number))?;
    put_units(way, units)?;
    put_paths(way, config, units)
}

/// Puts the keys of control units behind others.
pub(crate) fn put_units(keys: &mut Vec<Key>, units: &[UnitNo]) -> Result<(), AllocError>
    ensures { OnOk result (keys.new.items ≡ keys.old.items ++ map key_of.Unit units.now) }
{
    for unit in units {
        keys.push(Key::Unit(*unit))?;
    }
    Ok(())
}

/// Puts the keys of the paths of control units behind others.
fn put_paths(keys: &mut Vec<Key>, config: &Config, units: &[UnitNo]) -> Result<(), AllocError>
    ensures { OnOk result (keys.new.items
        ≡ keys.old.items ++ flat_map (meaning.path_keys (lookup_of config.now.records)) units.now) }
{
    for unit in units {
        put_own(keys, paths_of(config, *unit))?;
    }
    Ok(())
}

/// Puts the keys of paths behind others.
fn put_own(keys: &mut Vec<Key>, paths: &[CssPath]) -> Result<(), AllocError>
    ensures { OnOk result (keys.new.items ≡ keys.old.items ++ map meaning.path_key paths.now) }
{
    for path in paths {
        keys.push(Key::Path(path.css, path.path))?;
    }
    Ok(())
}
