ghost use Rattle.std.specs.Prelude.{◌≡◌};
ghost use Rattle.std.specs.List.{list_any};
ghost use Rattle.iocm_model.specs.Machine.Configuration.{lookup_of};
ghost use Rattle.iocm_model.specs.Rules.EachRule.{breaks_v8, breaks_v9, breaks_v11, breaks_v12, breaks_v13};
ghost use Rattle.iocm_lookup.specs.Among.{is_so_at, IsOnlyAt};
ghost use Rattle.iocm_lookup.specs.First.{first_key};
ghost use Rattle.iocm_device_rules.specs.WrongDevices as meaning;

use crate::devices::{CandidateOfNoImage, WrongUnits};
use crate::held::AddressNotHeld;
use crate::joined::WrongPathList;
use crate::limits::NumberPastLimit;
use iocm_config::Config;
use iocm_lookup::{Wanted, first_wanted_among};
use iocm_numbers::Numbers;
use iocm_record::Record;
use iocm_types::Key;
use std::alloc::Allocator;

/// The first devices that break rules of a device by itself, where only some were changed.
#[derive(Drop)]
pub struct WrongAmong {
    /// V8.
    pub units: Option<Key>,
    /// V9.
    pub address: Option<Key>,
    /// V11.
    pub path_list: Option<Key>,
    /// V12.
    pub candidates: Option<Key>,
    /// V13.
    pub number: Option<Key>,
}

/// The first devices that break V8, V9, V11, V12 and V13, where none at another key than these can.
/// The keys come in any order, also several times, and one may have no record. One look at the
/// record of each tells where none breaks any of the rules, as is the rule.
pub fn first_wrong_among<A: Allocator, N: Allocator>(
    config: &Config<A>,
    numbers: &Numbers<N>,
    keys: &[Key],
) -> WrongAmong
    requires units { IsOnlyAt keys.now config.now.records (breaks_v8 config.now.records) }
    requires address { IsOnlyAt keys.now config.now.records (breaks_v9 config.now.records) }
    requires path_list { IsOnlyAt keys.now config.now.records (breaks_v11 config.now.records) }
    requires candidates { IsOnlyAt keys.now config.now.records (breaks_v12 config.now.records) }
    requires number { IsOnlyAt keys.now config.now.records (breaks_v13 config.now.records numbers.now.numbers) }
    ensures units { result.units ≡ first_key (breaks_v8 config.now.records) config.now.records }
    ensures address { result.address ≡ first_key (breaks_v9 config.now.records) config.now.records }
    ensures path_list { result.path_list ≡ first_key (breaks_v11 config.now.records) config.now.records }
    ensures candidates { result.candidates ≡ first_key (breaks_v12 config.now.records) config.now.records }
    ensures number { result.number
        ≡ first_key (breaks_v13 config.now.records numbers.now.numbers) config.now.records }
{
    config.has_own_keys();
    if !is_any_wrong(config, numbers, keys) {
        return WrongAmong {
            units: None,
            address: None,
            path_list: None,
            candidates: None,
            number: None,
        };
    }
    WrongAmong {
        units: first_wanted_among(config, &WrongUnits, keys),
        address: first_wanted_among(config, &AddressNotHeld, keys),
        path_list: first_wanted_among(config, &WrongPathList, keys),
        candidates: first_wanted_among(config, &CandidateOfNoImage, keys),
        number: first_wanted_among(config, &NumberPastLimit { numbers }, keys),
    }
}

/// Whether the record at one of these keys breaks one of the rules.
fn is_any_wrong<A: Allocator, N: Allocator>(
    config: &Config<A>,
    numbers: &Numbers<N>,
    keys: &[Key],
) -> bool
    ensures { result ≡ list_any (is_so_at
        (meaning.breaks_by_itself config.now.records numbers.now.numbers) (lookup_of config.now.records)) keys.now }
{
    keys.iter().any(|key| is_wrong_at(config, numbers, key))
}

/// Whether the record at a key is there, and breaks one of the rules.
fn is_wrong_at<A: Allocator, N: Allocator>(
    config: &Config<A>,
    numbers: &Numbers<N>,
    key: &Key,
) -> bool
    ensures { result ≡ is_so_at
        (meaning.breaks_by_itself config.now.records numbers.now.numbers) (lookup_of config.now.records) key.now }
{
    match config.get(key) {
        Some(entry) => breaks_by_itself(config, numbers, entry),
        None => false,
    }
}

/// Whether a record is of a device that breaks one of the rules.
fn breaks_by_itself<A: Allocator, N: Allocator>(
    config: &Config<A>,
    numbers: &Numbers<N>,
    entry: &Record<A>,
) -> bool
    ensures { result ≡ meaning.breaks_by_itself config.now.records numbers.now.numbers entry.now }
{
    WrongUnits.is_wanted(config, entry)
        || Wanted::is_wanted(&AddressNotHeld, config, entry)
        || WrongPathList.is_wanted(config, entry)
        || CandidateOfNoImage.is_wanted(config, entry)
        || NumberPastLimit { numbers }.is_wanted(config, entry)
}
