ghost use Rattle.std.specs.Prelude.{◌≡◌, ◌++◌, None, IfOk, OnOk};
ghost use Rattle.std.specs.List.{flat_map};
ghost use Rattle.iocm_model.specs.Machine.Configuration.{records_of};
ghost use Rattle.iocm_model.specs.Rules.EachRule.{breaks_v8, breaks_v10};
ghost use Rattle.iocm_model.specs.Rules.FirstBreach.{first_record};
ghost use Rattle.iocm_lookup.specs.First.{first_key};
ghost use Rattle.iocm_device_rules.specs.OnUnits as numbers;

use crate::addresses::first_address_twice;
use iocm_config::Config;
use iocm_lookup::{RecordKind, index_of, is_any_twice, records_of_kind};
use iocm_record::{Record, RecordBody};
use iocm_types::{Key, UnitNo};
use std::alloc::{AllocError, Allocator};

/// V10 where there is no index yet: the key of the first device that breaks it, if one does; V8 is
/// kept. The addresses of all devices on their units are listed, and where none is there twice, no
/// device breaks the rule. Else `first_address_twice` answers by an index that is made for it.
///
/// `AllocError` (M1): memory ran out.
pub fn first_address_twice_at_opening<A: Allocator, B: Allocator + Copy>(
    alloc: B,
    config: &Config<A>,
) -> Result<Option<Key>, AllocError>
    requires { first_record (breaks_v8 config.now.records) (records_of config.now.records) ≡ None }
    ensures { IfOk result (λ key. key ≡ first_key (breaks_v10 config.now.records) config.now.records) }
{
    config.has_own_keys();
    let listed = list_numbers(alloc, config)?;
    if !is_any_twice(listed)? {
        return Ok(None);
    }
    let index = index_of(alloc, config)?;
    Ok(first_address_twice(config, &index))
}

/// The addresses of all devices on their units.
fn list_numbers<A: Allocator, B: Allocator>(
    alloc: B,
    config: &Config<A>,
) -> Result<Vec<u64, B>, AllocError>
    ensures { IfOk result (λ listed. listed.items ≡ flat_map numbers.unit_numbers (records_of config.now.records)) }
{
    // Most records are devices, and most devices have one unit.
    let mut listed = Vec::with_capacity(alloc, config.len())?;
    for entry in records_of_kind(config, RecordKind::Device) {
        list_of_record(&mut listed, entry)?;
    }
    Ok(listed)
}

/// Puts the addresses of a device behind those that are listed; other records have none.
fn list_of_record<A: Allocator, B: Allocator>(
    listed: &mut Vec<u64, B>,
    entry: &Record<A>,
) -> Result<(), AllocError>
    ensures { OnOk result (listed.new.items ≡ listed.old.items ++ numbers.unit_numbers entry.now) }
{
    match entry.body() {
        RecordBody::Device(fields) => {
            list_on_units(listed, fields.unit_address, fields.lists.units())
        }
        _ => Ok(()),
    }
}

/// Puts a unit address on these units behind those that are listed.
fn list_on_units<B: Allocator>(
    listed: &mut Vec<u64, B>,
    address: u8,
    units: &[UnitNo],
) -> Result<(), AllocError>
    ensures { OnOk result (listed.new.items ≡ listed.old.items ++ numbers.numbers_of address units.now) }
{
    for unit in units {
        listed.push(number_on(address, *unit))?;
    }
    Ok(())
}

/// The number of a unit address on a unit.
fn number_on(address: u8, unit: UnitNo) -> u64
    ensures { result ≡ numbers.number_on address unit }
{
    u64::from(unit.number()) * 256 + u64::from(address)
}
