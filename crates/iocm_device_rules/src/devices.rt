ghost use Rattle.std.specs.Prelude.{◌≡◌, not, is_none, nat_eq, unwrap_or, []};
ghost use Rattle.std.specs.List.{list_any};
ghost use Rattle.std.specs.Option.{option_copied};
ghost use Rattle.iocm_types.specs.declared.key.Key.TheVariants as key;
ghost use Rattle.iocm_model.specs.Machine.Configuration.{lookup_of};
ghost use Rattle.iocm_model.specs.Machine.Record.{device};
ghost use Rattle.iocm_model.specs.Rules.EachRule as model;
ghost use Rattle.iocm_record.specs.Meaning.{device_of};

use crate::alike::are_on_same_units;
use iocm_config::Config;
use iocm_lookup::{RecordKind, Wanted, is_image};
use iocm_record::{DeviceFields, Record, RecordBody};
use iocm_types::{Key, List, Name, UnitNo};
use std::alloc::Allocator;

/// V8: a device with no unit, over eight, one twice, or one that isn't there. The limit of eight is
/// that of the IOCP User's Guide, IODEVICE statement; the rest is own.
#[derive(Drop)]
pub struct WrongUnits;

impl<A: Allocator> Wanted<A> for WrongUnits {
    ghost use Rattle.std.specs.Prelude.{refl};
    ghost use Rattle.iocm_model.specs.Rules.EachRule.{breaks_v8};
    ghost use Rattle.iocm_lookup.specs.OfKind.{only_devices};

    ghost wants = { λ s c r. breaks_v8 c r };

    ghost fits = { λ s c. Unit {0} };

    ghost place = { 6 };

    ghost of_kind = { λ s c. only_devices (breaks_v8 c)
        (λ _. refl) (λ _. refl) (λ _. refl) (λ _. refl) (λ _. refl) (λ _. refl) (λ _. refl) };

    fn kind(&self) -> RecordKind {
        RecordKind::Device
    }

    fn is_wanted(&self, config: &Config<A>, entry: &Record<A>) -> bool {
        match entry.body() {
            RecordBody::Device(fields) => has_wrong_units(config, fields),
            _ => false,
        }
    }

    fn is_like(&self, entry: &Record<A>, other: &Record<A>) -> bool {
        are_on_same_units(entry, other)
    }
}

/// Whether a device breaks V8.
fn has_wrong_units<A: Allocator>(config: &Config<A>, fields: &DeviceFields<A>) -> bool
    ensures { result ≡ model.breaks_v8 config.now.records (device (device_of fields.now)) }
{
    let units = fields.lists.units();
    if units.len() == 0 || 8 < units.len() {
        return true;
    }
    is_unit_twice(units) || is_unit_missing(config, units)
}

/// Whether one of these units stands twice.
#[tactic(auto, using(crate::proofs::UnitNumbers::unit_twice))]
fn is_unit_twice(units: &[UnitNo]) -> bool
    ensures { result ≡ model.has_twice units.now }
{
    for i in 0..units.len() {
        if has_unit(units[i], &units[i + 1..]) {
            return true;
        }
    }
    false
}

/// Whether a unit is among these.
#[tactic(auto, using(iocm_types::proofs::Any::any_steps))]
fn has_unit(number: UnitNo, units: &[UnitNo]) -> bool
    ensures { result ≡ list_any (nat_eq number) units.now }
{
    for unit in units {
        if number == *unit {
            return true;
        }
    }
    false
}

/// Whether one of these units isn't there.
#[tactic(auto, using(iocm_types::proofs::Any::any_steps))]
fn is_unit_missing<A: Allocator>(config: &Config<A>, units: &[UnitNo]) -> bool
    ensures { result ≡ list_any (λ number. is_none (lookup_of config.now.records (key.Unit number))) units.now }
{
    for unit in units {
        if config.get(&Key::Unit(*unit)).is_none() {
            return true;
        }
    }
    false
}

/// V12: a candidate of a device is no image of any channel subsystem.
#[derive(Drop)]
pub struct CandidateOfNoImage;

impl<A: Allocator> Wanted<A> for CandidateOfNoImage {
    ghost use Rattle.std.specs.Prelude.{refl};
    ghost use Rattle.iocm_model.specs.Rules.EachRule.{breaks_v12};
    ghost use Rattle.iocm_lookup.specs.OfKind.{only_devices};

    ghost wants = { λ s c r. breaks_v12 c r };

    ghost fits = { λ s c. Unit {0} };

    ghost place = { 6 };

    ghost of_kind = { λ s c. only_devices (breaks_v12 c)
        (λ _. refl) (λ _. refl) (λ _. refl) (λ _. refl) (λ _. refl) (λ _. refl) (λ _. refl) };

    fn kind(&self) -> RecordKind {
        RecordKind::Device
    }

    fn is_wanted(&self, config: &Config<A>, entry: &Record<A>) -> bool {
        match entry.body() {
            RecordBody::Device(fields) => lists_stranger(config, fields.lists.candidates()),
            _ => false,
        }
    }
}

/// Whether candidates are listed, and one is no image.
fn lists_stranger<A: Allocator>(config: &Config<A>, candidates: Option<&List<Name, A>>) -> bool
    ensures { result ≡ list_any (λ name. not (model.is_image config.now.records name))
        (unwrap_or (option_copied candidates.entry) []) }
{
    match candidates {
        Some(names) => has_stranger(config, names.as_slice()),
        None => false,
    }
}

/// Whether one of these names is that of no image.
#[tactic(auto, using(iocm_types::proofs::Any::any_steps))]
fn has_stranger<A: Allocator>(config: &Config<A>, names: &[Name]) -> bool
    ensures { result ≡ list_any (λ name. not (model.is_image config.now.records name)) names.now }
{
    for name in names {
        if !is_image(config, *name) {
            return true;
        }
    }
    false
}
