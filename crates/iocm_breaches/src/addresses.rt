ghost use Rattle.std.specs.Prelude.{◌≡◌, ℕ, ◌<◌, ◌++◌, ◌∷◌, ◌||◌, [], nat_eq, OnOk};
ghost use Rattle.std.specs.List.{list_any};
ghost use Rattle.iocm_types.specs.declared.rule.Rule.TheVariants as rule;
ghost use Rattle.iocm_model.specs.Machine.Configuration.{records_of};
ghost use Rattle.iocm_model.specs.Rules.EachRule.{breaks_v10};
ghost use Rattle.iocm_device_rules.specs.OnUnits as numbers;
ghost use Rattle.iocm_breaches.specs.Addresses as addresses;
ghost use Rattle.iocm_breaches.specs.Breaches.{breaches_of_rule};

use crate::listed::list_if;
use iocm_config::Config;
use iocm_record::{Record, RecordBody};
use iocm_rules::Breach;
use iocm_types::{Rule, UnitNo};
use std::alloc::{AllocError, Allocator};
use std::collections::BTreeSet;

/// Puts the breaches of V10 behind those that are listed, by key: a device with a smaller key has the
/// same unit address and a common unit. So the addresses of the devices so far, each on its units,
/// tell of the next one, and each device is looked at once for each of its units.
///
/// `AllocError` (M1): memory ran out.
pub fn list_taken<A: Allocator, B: Allocator, C: Allocator + Clone>(
    breaches: &mut Vec<Breach, B>,
    alloc: C,
    config: &Config<A>,
) -> Result<(), AllocError>
    ensures { OnOk result (breaches.new.items ≡ breaches.old.items
        ++ breaches_of_rule rule.V10 (breaks_v10 config.now.records) (records_of config.now.records)) }
{
    config.has_own_keys();
    let mut met = BTreeSet::new(alloc);
    for (_, entry) in config.walk() {
        list_if_taken(breaches, &mut met, entry)?;
    }
    Ok(())
}

/// Puts a breach behind those that are listed, if the record is that of a device of which an address
/// was met. Its addresses are met from now on.
fn list_if_taken<A: Allocator, B: Allocator, C: Allocator + Clone>(
    breaches: &mut Vec<Breach, B>,
    met: &mut BTreeSet<u64, C>,
    entry: &Record<A>,
) -> Result<(), AllocError>
    ensures listed { OnOk result (breaches.new.items ≡ breaches.old.items
        ++ breaches_of_rule rule.V10 (addresses.meets (addresses.is_met met.old)) (entry.now ∷ [])) }
    ensures met { OnOk result ((n : ℕ) → addresses.is_met met.new n
        ≡ addresses.met_with entry.now (addresses.is_met met.old) n) }
    ensures byte { OnOk result (addresses.HasByte entry.now) }
{
    match entry.body() {
        RecordBody::Device(fields) => {
            let units = fields.lists.units();
            let is_taken = is_any_met(met, fields.unit_address, units);
            meet_all(met, fields.unit_address, units)?;
            list_if(breaches, Rule::V10, is_taken, entry)
        }
        _ => Ok(()),
    }
}

/// Whether an address on one of these units was met.
#[tactic(auto, using(iocm_types::proofs::Any::any_steps))]
fn is_any_met<C: Allocator>(met: &BTreeSet<u64, C>, address: u8, units: &[UnitNo]) -> bool
    ensures { result ≡ list_any (λ unit. addresses.is_met met.now (numbers.number_on address unit)) units.now }
{
    for unit in units {
        if is_met(met, number_on(address, *unit)) {
            return true;
        }
    }
    false
}

/// Whether a number was met.
fn is_met<C: Allocator>(met: &BTreeSet<u64, C>, number: u64) -> bool
    ensures { result ≡ addresses.is_met met.now number }
{
    met.contains(&number)
}

/// An address on each of these units is met from now on.
fn meet_all<C: Allocator + Clone>(
    met: &mut BTreeSet<u64, C>,
    address: u8,
    units: &[UnitNo],
) -> Result<(), AllocError>
    ensures { OnOk result ((n : ℕ) → addresses.is_met met.new n
        ≡ (list_any (nat_eq n) (numbers.numbers_of address units.now) || addresses.is_met met.old n)) }
{
    for unit in units {
        meet(met, number_on(address, *unit))?;
    }
    Ok(())
}

/// A number is met from now on.
fn meet<C: Allocator + Clone>(met: &mut BTreeSet<u64, C>, number: u64) -> Result<(), AllocError>
    ensures { OnOk result ((n : ℕ) → addresses.is_met met.new n ≡ (nat_eq n number || addresses.is_met met.old n)) }
{
    met.insert(number)?;
    Ok(())
}

/// The number of an address on a unit.
fn number_on(address: u8, unit: UnitNo) -> u64
    ensures { result ≡ numbers.number_on address unit }
{
    u64::from(unit.number()) * 256 + u64::from(address)
}
