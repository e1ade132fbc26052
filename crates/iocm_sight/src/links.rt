ghost use Rattle.std.specs.Prelude.{◌≡◌, ◌++◌, IfOk, OnOk};
ghost use Rattle.std.specs.List.{filter_map, flat_map};
ghost use Rattle.iocm_types.specs.declared.key.Key.TheVariants as key;
ghost use Rattle.iocm_types.specs.declared.named.Named.TheVariants as thing;
ghost use Rattle.iocm_types.specs.Naming.{naming_cmp};
ghost use Rattle.iocm_table.specs.Slots.{rows};
ghost use Rattle.iocm_index.specs.Namings.{users_in};
ghost use Rattle.iocm_sight.specs.Connected as meaning;

use crate::listing::Listing;
use crate::{DeviceKey, device_key};
use iocm_index::Index;
use iocm_types::{Chpid, Css, Key, Named, UnitNo, sorted_once};
use std::alloc::{AllocError, Global};

/// The numbers of the control units that have a path, in their order. The time is that of a search,
/// and of a look at each of them and at each image to which the path is online.
///
/// `AllocError` (M1): memory ran out.
pub fn units_of_path(
    alloc: Global,
    listing: &Listing<'_>,
    css: Css,
    path: Chpid,
) -> Result<Vec<UnitNo>, AllocError>
    ensures { IfOk result (λ units. units.items ≡ meaning.units_of_path listing.now.config.now.records css path) }
{
    listing.config.has_own_keys();
    units_among(alloc, &listing.index, Named::Record(Key::Path(css, path)))
}

/// Of the records that name a thing the numbers of those that are control units, in their order.
fn units_among(alloc: Global, index: &Index, named: Named) -> Result<Vec<UnitNo>, AllocError>
    ensures { IfOk result (λ units. units.items
        ≡ filter_map meaning.unit_number (users_in named (rows naming_cmp index.now))) }
{
    let mut units = Vec::new(alloc);
    for user in index.users_of(named) {
        if let Key::Unit(unit) = user {
            units.push(unit)?;
        }
    }
    Ok(units)
}

/// The devices that name one of these control units, in the order of their keys, each once. The time
/// is that of sorting those that name each of them.
///
/// `AllocError` (M1): memory ran out.
pub fn devices_on(
    alloc: Global,
    listing: &Listing<'_>,
    units: &[UnitNo],
) -> Result<Vec<DeviceKey>, AllocError>
    ensures { IfOk result (λ devices. devices.items ≡ meaning.devices_on listing.now.config.now.records units.now) }
{
    listing.config.has_own_keys();
    let keys = sorted_once(users_of_all(alloc, &listing.index, units)?)?;
    devices_among(alloc, keys.as_slice())
}

/// The keys of the records that name each of these control units, one after the other.
fn users_of_all(alloc: Global, index: &Index, units: &[UnitNo]) -> Result<Vec<Key>, AllocError>
    ensures { IfOk result (λ keys. keys.items
        ≡ flat_map (λ unit. users_in (thing.Record (key.Unit unit)) (rows naming_cmp index.now)) units.now) }
{
    let mut keys = Vec::new(alloc);
    for unit in units {
        put_users(&mut keys, index, Named::Record(Key::Unit(*unit)))?;
    }
    Ok(keys)
}

/// Puts the keys of the records that name a thing behind others.
fn put_users(keys: &mut Vec<Key>, index: &Index, named: Named) -> Result<(), AllocError>
    ensures { OnOk result (keys.new.items ≡ keys.old.items ++ users_in named (rows naming_cmp index.now)) }
{
    for user in index.users_of(named) {
        keys.push(user)?;
    }
    Ok(())
}

/// Of these keys those of devices.
fn devices_among(alloc: Global, keys: &[Key]) -> Result<Vec<DeviceKey>, AllocError>
    ensures { IfOk result (λ devices. devices.items ≡ filter_map meaning.device_key keys.now) }
{
    keys.iter().filter_map(|key| device_key(key)).collect(alloc)
}
