ghost use Rattle.std.specs.Prelude.{◌≡◌, None};
ghost use Rattle.iocm_types.specs.Naming.{naming_cmp};
ghost use Rattle.iocm_table.specs.Slots.{rows};
ghost use Rattle.iocm_model.specs.Machine.Configuration.{lookup_of};
ghost use Rattle.iocm_model.specs.Rules.EachRule.{breaks_v10};
ghost use Rattle.iocm_lookup.specs.Among as lookup;
ghost use Rattle.iocm_lookup.specs.Indexed.{IsIndexOf};
ghost use Rattle.iocm_device_rules.specs.Addresses as addresses;
ghost use Rattle.iocm_device_rules.specs.Among as among;
ghost use Rattle.iocm_lookup.specs.First.{first_key};

use crate::addresses::first_clash_beside;
use iocm_config::Config;
use iocm_index::Index;
use iocm_lookup::lesser;
use iocm_record::RecordBody;
use iocm_types::{Key, UnitNo};
use std::alloc::Allocator;

/// V10, as `first_address_twice` answers it, where of two devices with one unit address and a
/// common unit one is at these keys.
///
/// Of the devices at a unit address of a unit, in order, the second is the least that breaks the
/// rule there, and the answer is the least of those at the addresses of the devices at the keys. The
/// index has them side by side, so no other device on the units is looked at.
pub fn first_address_twice_among<A: Allocator, I: Allocator>(
    config: &Config<A>,
    index: &Index<I>,
    keys: &[Key],
) -> Option<Key>
    requires index { IsIndexOf config.now.records index.now }
    requires clashes { among.AreClashesAt keys.now config.now.records }
    ensures { result ≡ first_key (breaks_v10 config.now.records) config.now.records }
{
    config.has_own_keys();
    least_clash_among(config, index, keys)
}

/// The least device that has, on a unit of the device at one of some keys, its address and another
/// device there before it.
#[tactic(auto, using(iocm_lookup::proofs::Leasts::least_steps))]
fn least_clash_among<A: Allocator, I: Allocator>(
    config: &Config<A>,
    index: &Index<I>,
    keys: &[Key],
) -> Option<Key>
    ensures { result ≡ lookup.least_of (addresses.clash_at (lookup_of config.now.records)
        (rows naming_cmp index.now)) None keys.now }
{
    let mut least = None;
    for key in keys {
        least = lesser(least, clash_at(config, index, key));
    }
    least
}

/// The least clash at the unit address of the device at a key, on its units.
fn clash_at<A: Allocator, I: Allocator>(
    config: &Config<A>,
    index: &Index<I>,
    key: &Key,
) -> Option<Key>
    ensures { result ≡ addresses.clash_at (lookup_of config.now.records) (rows naming_cmp index.now) key.now }
{
    match config.get(key)?.body() {
        RecordBody::Device(fields) => {
            clash_on_units(config, index, fields.unit_address, fields.lists.units())
        }
        _ => None,
    }
}

/// The least clash at this address of these units.
#[tactic(auto, using(iocm_lookup::proofs::Leasts::least_steps))]
fn clash_on_units<A: Allocator, I: Allocator>(
    config: &Config<A>,
    index: &Index<I>,
    address: u8,
    units: &[UnitNo],
) -> Option<Key>
    ensures { result ≡ lookup.least_of (addresses.clash_beside (lookup_of config.now.records)
        (rows naming_cmp index.now) address) None units.now }
{
    let mut least = None;
    for unit in units {
        least = lesser(least, first_clash_beside(config, index, address, *unit));
    }
    least
}
