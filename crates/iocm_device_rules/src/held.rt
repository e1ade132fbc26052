ghost use Rattle.std.specs.Prelude.{◌≡◌, Some};
ghost use Rattle.std.specs.List.{list_any};
ghost use Rattle.std.specs.Option.{ForSome};
ghost use Rattle.iocm_types.specs.declared.key.Key.TheVariants as key;
ghost use Rattle.iocm_model.specs.Machine.Configuration.{lookup_of};
ghost use Rattle.iocm_model.specs.Rules.EachRule as model;
ghost use Rattle.iocm_lookup.specs.There.{IsThere};

use iocm_config::Config;
use iocm_lookup::{RecordKind, Wanted, WantedByNamed, get_after};
use iocm_record::{Record, RecordBody};
use iocm_types::{Key, UnitNo};
use iocm_unit_rules::is_address_held;
use std::alloc::Allocator;

/// V9: the ranges of one of a device's units don't hold its unit address.
#[derive(Drop)]
pub struct AddressNotHeld;

/// For the records at some keys.
impl<A: Allocator> Wanted<A> for AddressNotHeld {
    ghost use Rattle.std.specs.Prelude.{refl};
    ghost use Rattle.iocm_model.specs.Rules.EachRule.{breaks_v9};
    ghost use Rattle.iocm_lookup.specs.OfKind.{only_devices};

    ghost wants = { λ s c r. breaks_v9 c r };

    ghost fits = { λ s c. Unit {0} };

    ghost place = { 6 };

    ghost of_kind = { λ s c. only_devices (breaks_v9 c)
        (λ _. refl) (λ _. refl) (λ _. refl) (λ _. refl) (λ _. refl) (λ _. refl) (λ _. refl) };

    fn kind(&self) -> RecordKind {
        RecordKind::Device
    }

    fn is_wanted(&self, config: &Config<A>, entry: &Record<A>) -> bool {
        let mut last = None;
        is_not_held(config, &mut last, entry)
    }
}

/// For all devices: neighbours are mostly on the same unit.
impl<A: Allocator> WantedByNamed<A> for AddressNotHeld {
    ghost use Rattle.std.specs.Prelude.{refl};
    ghost use Rattle.iocm_model.specs.Rules.EachRule.{breaks_v9};
    ghost use Rattle.iocm_lookup.specs.OfKind.{only_devices};

    ghost wants = { λ s c r. breaks_v9 c r };

    ghost place = { 6 };

    ghost of_kind = { λ s c. only_devices (breaks_v9 c)
        (λ _. refl) (λ _. refl) (λ _. refl) (λ _. refl) (λ _. refl) (λ _. refl) (λ _. refl) };

    fn kind(&self) -> RecordKind {
        RecordKind::Device
    }

    fn is_wanted<'a>(
        &self,
        config: &'a Config<A>,
        last: &mut Option<&'a Record<A>>,
        entry: &Record<A>,
    ) -> bool {
        is_not_held(config, last, entry)
    }
}

/// Whether a record is that of a device that breaks V9.
fn is_not_held<'a, A: Allocator>(
    config: &'a Config<A>,
    last: &mut Option<&'a Record<A>>,
    entry: &Record<A>,
) -> bool
    requires { ForSome last.old (λ r. IsThere config.now.records r.now) }
    ensures wanted { result ≡ model.breaks_v9 config.now.records entry.now }
    ensures last { ForSome last.new (λ r. IsThere config.now.records r.now) }
{
    match entry.body() {
        RecordBody::Device(fields) => {
            is_address_lacked(config, last, fields.unit_address, fields.lists.units())
        }
        _ => false,
    }
}

/// Whether one of these units that is there lacks an address.
#[tactic(auto, using(iocm_types::proofs::Any::any_steps))]
fn is_address_lacked<'a, A: Allocator>(
    config: &'a Config<A>,
    last: &mut Option<&'a Record<A>>,
    address: u8,
    units: &[UnitNo],
) -> bool
    requires { ForSome last.old (λ r. IsThere config.now.records r.now) }
    ensures lacked { result ≡ list_any
        (λ number. model.lacks_address address (lookup_of config.now.records (key.Unit number))) units.now }
    ensures last { ForSome last.new (λ r. IsThere config.now.records r.now) }
{
    for unit in units {
        if lacks_address(config, last, address, *unit) {
            return true;
        }
    }
    false
}

/// Whether a unit that is there lacks an address.
fn lacks_address<'a, A: Allocator>(
    config: &'a Config<A>,
    last: &mut Option<&'a Record<A>>,
    address: u8,
    unit: UnitNo,
) -> bool
    requires { ForSome last.old (λ r. IsThere config.now.records r.now) }
    ensures lacked { result ≡ model.lacks_address address (lookup_of config.now.records (key.Unit unit)) }
    ensures last { ForSome last.new (λ r. IsThere config.now.records r.now) }
{
    match get_after(config, last, &Key::Unit(unit)) {
        Some(entry) => record_lacks_address(address, entry),
        None => false,
    }
}

/// Whether a record is that of a unit that lacks an address.
fn record_lacks_address<A: Allocator>(address: u8, entry: &Record<A>) -> bool
    ensures { result ≡ model.lacks_address address (Some entry.now) }
{
    match entry.body() {
        RecordBody::Unit(fields) => !is_address_held(address, fields.ranges.as_slice()),
        _ => false,
    }
}
