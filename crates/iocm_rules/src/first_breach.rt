ghost use Rattle.std.specs.Prelude.{◌≡◌, None, IfOk};
ghost use Rattle.std.specs.Result.{result_err};
ghost use Rattle.iocm_model.specs.Machine.Configuration.{records_of};
ghost use Rattle.iocm_model.specs.Machine.Numbering.{Numbering, opening};
ghost use Rattle.iocm_model.specs.Rules.EachRule.{breaks_v8, breaks_v10, breaks_v11, breaks_v12, breaks_v14};
ghost use Rattle.iocm_model.specs.Rules.FirstBreach.{first_breach, first_breach_of};
ghost use Rattle.iocm_lookup.specs.First.{first_key};
ghost use Rattle.iocm_lookup.specs.Indexed.{IsIndexOf};
ghost use Rattle.iocm_rules.specs.Check.{to_v8, from_v9, IsFirstPast};

use crate::Breach;
use crate::found::first_of;
use crate::image_names::NameTwice;
use crate::names::{NameOfNoImage, TooManyNames};
use crate::online::WrongOnline;
use iocm_config::Config;
use iocm_device_rules::{
    AddressNotHeld, WrongDevices, first_address_twice, first_address_twice_at_opening,
    first_past_limit, first_past_limit_at_opening, first_wrong_devices,
};
use iocm_index::Index;
use iocm_lookup::{first_wanted, first_wanted_by_named};
use iocm_numbers::Numbers;
use iocm_types::{Key, Rule};
use iocm_unit_rules::{
    WrongLinks, WrongPaths, WrongRanges, first_shared_address, first_shared_address_at_opening,
};
use std::alloc::{AllocError, Allocator};

/// The first breach of the rules V1 to V14: by rule, then by key. The index is that of the
/// configuration. It takes no memory, and its time is about in proportion to the records and to
/// what they name.
///
/// Promise: the first breach of the fourteen rules is answered, and none exactly if all hold.
pub fn check<A: Allocator, N: Allocator, I: Allocator>(
    config: &Config<A>,
    numbers: &Numbers<N>,
    index: &Index<I>,
) -> Result<(), Breach>
    requires { IsIndexOf config.now.records index.now }
    ensures { result_err result ≡ first_breach config.now.records numbers.now.numbers }
{
    let devices = first_wrong_devices(config);
    if let Some(breach) = first_to_v8(config, &devices) {
        return Err(breach);
    }
    let searched = Searched {
        twice: first_address_twice(config, index),
        past: first_past_limit(config, numbers),
        shared: first_shared_address(config, index),
    };
    match first_from_v9(config, &devices, &searched) {
        Some(breach) => Err(breach),
        None => Ok(()),
    }
}

/// The first breach of the rules V1 to V14 by the numbers that devices have at opening: by rule,
/// then by key. Neither a table of the numbers nor an index is made, but where one of V10, V13 and
/// V14 may be broken.
///
/// `AllocError` (M1): memory ran out.
///
/// Promise: a deck is judged by the same rules, with the numbers that its devices get.
pub fn check_at_opening<A: Allocator, B: Allocator + Copy>(
    alloc: B,
    config: &Config<A>,
) -> Result<Option<Breach>, AllocError>
    ensures { IfOk result (λ breach. breach ≡ first_breach config.now.records (opening config.now.records)) }
{
    let devices = first_wrong_devices(config);
    if let Some(breach) = first_to_v8(config, &devices) {
        return Ok(Some(breach));
    }
    let searched = Searched {
        twice: first_address_twice_at_opening(alloc, config)?,
        past: first_past_limit_at_opening(alloc, config)?,
        shared: first_shared_address_at_opening(alloc, config)?,
    };
    Ok(first_from_v9(config, &devices, &searched))
}

/// The first breach of V1 to V8: the table of these rules, in their order.
fn first_to_v8<A: Allocator>(config: &Config<A>, devices: &WrongDevices) -> Option<Breach>
    requires { devices.now.units ≡ first_key (breaks_v8 config.now.records) config.now.records }
    ensures { result ≡ first_breach_of (to_v8 config.now.records) (records_of config.now.records) }
{
    first_of(&[
        (Rule::V1, first_wanted(config, &NameTwice)),
        (Rule::V2, first_wanted(config, &NameOfNoImage)),
        (Rule::V3, first_wanted(config, &TooManyNames)),
        (Rule::V4, first_wanted_by_named(config, &WrongOnline)),
        (Rule::V5, first_wanted(config, &WrongPaths)),
        (Rule::V6, first_wanted(config, &WrongLinks)),
        (Rule::V7, first_wanted(config, &WrongRanges)),
        (Rule::V8, devices.units),
    ])
}

/// The first records that break the rules for which the caller knows what to search by.
#[derive(Drop)]
struct Searched {
    /// V10.
    twice: Option<Key>,
    /// V13.
    past: Option<Key>,
    /// V14.
    shared: Option<Key>,
}

/// The first breach of V9 to V14: the table of these rules, in their order.
fn first_from_v9<A: Allocator>(
    config: &Config<A>,
    devices: &WrongDevices,
    searched: &Searched,
) -> Option<Breach>
    requires path_list { devices.now.path_list ≡ first_key (breaks_v11 config.now.records) config.now.records }
    requires candidates { devices.now.candidates ≡ first_key (breaks_v12 config.now.records) config.now.records }
    requires twice { searched.now.twice ≡ first_key (breaks_v10 config.now.records) config.now.records }
    requires shared { searched.now.shared ≡ first_key (breaks_v14 config.now.records) config.now.records }
    ensures { (n : Numbering) → IsFirstPast config.now.records n searched.now.past
        → result ≡ first_breach_of (from_v9 config.now.records n) (records_of config.now.records) }
{
    first_of(&[
        (Rule::V9, first_wanted_by_named(config, &AddressNotHeld)),
        (Rule::V10, searched.twice),
        (Rule::V11, devices.path_list),
        (Rule::V12, devices.candidates),
        (Rule::V13, searched.past),
        (Rule::V14, searched.shared),
    ])
}
