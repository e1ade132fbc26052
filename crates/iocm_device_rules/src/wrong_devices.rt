ghost use Rattle.std.specs.Prelude.{◌≡◌};
ghost use Rattle.iocm_model.specs.Rules.EachRule.{breaks_v8, breaks_v11, breaks_v12};
ghost use Rattle.iocm_lookup.specs.First.{first_key};

use crate::alike::{are_on_same_units, are_without_candidates};
use crate::devices::{CandidateOfNoImage, WrongUnits};
use crate::joined::WrongPathList;
use iocm_config::Config;
use iocm_lookup::{RecordKind, Wanted, first_wanted, is_any_wanted};
use iocm_record::Record;
use iocm_types::Key;
use std::alloc::Allocator;

/// The first devices that break rules of a device by itself.
#[derive(Drop)]
pub struct WrongDevices {
    /// V8.
    pub units: Option<Key>,
    /// V11.
    pub path_list: Option<Key>,
    /// V12.
    pub candidates: Option<Key>,
}

/// The first devices that break V8, V11 and V12. One walk over the devices tells where none breaks
/// any of them, as is the rule.
pub fn first_wrong_devices<A: Allocator>(config: &Config<A>) -> WrongDevices
    ensures units { result.units ≡ first_key (breaks_v8 config.now.records) config.now.records }
    ensures path_list { result.path_list ≡ first_key (breaks_v11 config.now.records) config.now.records }
    ensures candidates { result.candidates ≡ first_key (breaks_v12 config.now.records) config.now.records }
{
    if !is_any_wanted(config, &WrongDevice) {
        return WrongDevices {
            units: None,
            path_list: None,
            candidates: None,
        };
    }
    WrongDevices {
        units: first_wanted(config, &WrongUnits),
        path_list: first_wanted(config, &WrongPathList),
        candidates: first_wanted(config, &CandidateOfNoImage),
    }
}

/// A device that breaks one of V8, V11 and V12.
#[derive(Drop)]
struct WrongDevice;

impl<A: Allocator> Wanted<A> for WrongDevice {
    ghost use Rattle.std.specs.Prelude.{refl};
    ghost use Rattle.iocm_device_rules.specs.WrongDevices.{breaks_any};
    ghost use Rattle.iocm_lookup.specs.OfKind.{only_devices};

    ghost wants = { λ s c r. breaks_any c r };

    ghost fits = { λ s c. Unit {0} };

    ghost place = { 6 };

    ghost of_kind = { λ s c. only_devices (breaks_any c)
        (λ _. refl) (λ _. refl) (λ _. refl) (λ _. refl) (λ _. refl) (λ _. refl) (λ _. refl) };

    fn kind(&self) -> RecordKind {
        RecordKind::Device
    }

    fn is_wanted(&self, config: &Config<A>, entry: &Record<A>) -> bool {
        WrongUnits.is_wanted(config, entry)
            || WrongPathList.is_wanted(config, entry)
            || CandidateOfNoImage.is_wanted(config, entry)
    }

    fn is_like(&self, entry: &Record<A>, other: &Record<A>) -> bool {
        are_on_same_units(entry, other) && are_without_candidates(entry, other)
    }
}
