ghost use Rattle.std.specs.Prelude.{◌≡◌, None};
ghost use Rattle.iocm_types.specs.Naming.{naming_cmp};
ghost use Rattle.iocm_table.specs.Slots.{rows};
ghost use Rattle.iocm_model.specs.Machine.Configuration.{lookup_of, records_of};
ghost use Rattle.iocm_model.specs.Rules.EachRule.{breaks_v8, breaks_v10};
ghost use Rattle.iocm_model.specs.Rules.FirstBreach.{first_record};
ghost use Rattle.iocm_lookup.specs.Among.{least_of};
ghost use Rattle.iocm_lookup.specs.Indexed.{IsIndexOf};
ghost use Rattle.iocm_device_rules.specs.Addresses as addresses;
ghost use Rattle.iocm_lookup.specs.First.{first_key};

use iocm_config::Config;
use iocm_index::Index;
use iocm_lookup::{Addressed, first_repeated, lesser};
use iocm_record::{Record, RecordBody};
use iocm_types::{Key, Named, UnitNo};
use std::alloc::Allocator;

/// V10: a device with a smaller key has the same unit address and a common unit. So no unit address
/// of a unit is that of two devices.
///
/// The key of the first device that breaks it, if one does; V8 is kept, so each unit that a device
/// names is there. It goes unit by unit: of a unit's devices in order the first whose address was
/// met is the least that breaks the rule there, and the answer is the least of all units'. So each
/// device is looked at once for each of its units.
pub fn first_address_twice<A: Allocator, I: Allocator>(
    config: &Config<A>,
    index: &Index<I>,
) -> Option<Key>
    requires index { IsIndexOf config.now.records index.now }
    requires units { first_record (breaks_v8 config.now.records) (records_of config.now.records) ≡ None }
    ensures { result ≡ first_key (breaks_v10 config.now.records) config.now.records }
{
    config.has_own_keys();
    least_clash(config, index)
}

/// The least of the devices that have, on one of their units, the address of one before them.
fn least_clash<A: Allocator, I: Allocator>(config: &Config<A>, index: &Index<I>) -> Option<Key>
    ensures { result ≡ least_of (addresses.clash_of (lookup_of config.now.records) (rows naming_cmp index.now)) None
        (records_of config.now.records) }
{
    let mut least = None;
    for (_, entry) in config.walk() {
        least = lesser(least, clash_of(config, index, entry));
    }
    least
}

/// Of a unit's devices the first with the address of one before it; of other records none.
fn clash_of<A: Allocator, I: Allocator>(
    config: &Config<A>,
    index: &Index<I>,
    entry: &Record<A>,
) -> Option<Key>
    ensures { result ≡ addresses.clash_of (lookup_of config.now.records) (rows naming_cmp index.now) entry.now }
{
    match entry.body() {
        RecordBody::Unit(fields) => first_clash(config, index, fields.number),
        _ => None,
    }
}

/// Of the devices on a unit, in order, the first with the address of one before it.
fn first_clash<A: Allocator, I: Allocator>(
    config: &Config<A>,
    index: &Index<I>,
    unit: UnitNo,
) -> Option<Key>
    ensures { result ≡ addresses.clash_on (lookup_of config.now.records) (rows naming_cmp index.now) unit }
{
    first_repeated(config, index, Named::Record(Key::Unit(unit)), &UnitAddress)
}

/// Of the devices at an address of a unit, in order, the first that stands behind another.
pub(crate) fn first_clash_beside<A: Allocator, I: Allocator>(
    config: &Config<A>,
    index: &Index<I>,
    address: u8,
    unit: UnitNo,
) -> Option<Key>
    ensures { result ≡ addresses.clash_beside (lookup_of config.now.records) (rows naming_cmp index.now) address unit }
{
    first_repeated(config, index, Named::Address(unit, address), &UnitAddress)
}

/// The unit address of a device, which no other device on one of its units has.
#[derive(Drop)]
struct UnitAddress;

impl<A: Allocator> Addressed<A> for UnitAddress {
    ghost use Rattle.iocm_device_rules.specs.Addresses.{unit_address, any_record};

    ghost address_of = { λ s. unit_address };

    ghost wants = { λ s c. any_record };

    fn address(&self, entry: &Record<A>) -> Option<u8> {
        match entry.body() {
            RecordBody::Device(fields) => Some(fields.unit_address),
            _ => None,
        }
    }

    fn is_wanted(&self, _config: &Config<A>, _entry: &Record<A>) -> bool {
        true
    }
}
