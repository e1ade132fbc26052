ghost use Rattle.std.specs.Prelude.{◌≡◌, ◌==◌, ◌<◌, ◌^◌, ◌++◌, [], ◌∷◌, Some, not, filter, length};
ghost use Rattle.std.specs.Prelude.{map, sum_by, IfOk, OnOk};
ghost use Rattle.iocm_model.specs.Machine.Configuration.{devices_of, lookup_of};
ghost use Rattle.iocm_model.specs.Machine.Numbering.{reached_devices, subsystems};
ghost use Rattle.iocm_model.specs.Rules.EachRule as rule;
ghost use Rattle.iocm_record.specs.Meaning.{device_of};
ghost use Rattle.iocm_deck_writer.specs.Device.{runs};
ghost use Rattle.iocm_sight.specs.Counts as meaning;

use crate::runs::{DeviceRun, with_run};
use iocm_config::Config;
use iocm_numbers::is_reached;
use iocm_record::{DeviceFields, Record, RecordBody};
use iocm_types::{Css, Key, SetNo};
use iocm_words::SetNumbers;
use std::alloc::{AllocError, Global};

/// The numbers of the sets in use in each channel subsystem, by all runs of devices.
///
/// `AllocError` (M1): memory ran out.
pub fn all_numbers(
    alloc: Global,
    config: &Config,
    every: &[DeviceRun<'_>],
) -> Result<Vec<Vec<SetNumbers>>, AllocError>
    requires runs { every.now ≡ runs (devices_of config.now.records) }
    requires few { sum_by (λ r. r.count) every.now < 2 ^ 64 }
    ensures { IfOk result (λ all. map (λ numbers. numbers.items) all.items
        ≡ map (meaning.numbers_in config.now.records) subsystems) }
{
    let mut all = Vec::new(alloc);
    for number in 0u8..6 {
        let Some(css) = Css::new(number) else {
            unreachable!()
        };
        all.push(numbers_in(alloc, config, css, every)?)?;
    }
    Ok(all)
}

/// The numbers of the sets in use in a channel subsystem, by all runs of devices.
///
/// `AllocError` (M1): memory ran out.
#[tactic(auto, unfolding(crate::specs::Counts::numbers_in))]
fn numbers_in(
    alloc: Global,
    config: &Config,
    css: Css,
    every: &[DeviceRun<'_>],
) -> Result<Vec<SetNumbers>, AllocError>
    requires runs { every.now ≡ runs (devices_of config.now.records) }
    requires few { sum_by (λ r. r.count) every.now < 2 ^ 64 }
    ensures { IfOk result (λ numbers. numbers.items ≡ meaning.numbers_in config.now.records css) }
{
    let mut numbers = Vec::new(alloc);
    for number in 0u8..4 {
        let Some(set) = SetNo::new(number) else {
            unreachable!()
        };
        put_numbers(&mut numbers, config, css, set, every)?;
    }
    Ok(numbers)
}

/// Puts those of a set behind others, if it is in use.
fn put_numbers(
    numbers: &mut Vec<SetNumbers>,
    config: &Config,
    css: Css,
    set: SetNo,
    every: &[DeviceRun<'_>],
) -> Result<(), AllocError>
    requires runs { every.now ≡ runs (devices_of config.now.records) }
    requires few { sum_by (λ r. r.count) every.now < 2 ^ 64 }
    ensures { OnOk result (numbers.new.items ≡ numbers.old.items
        ++ filter (λ s. not (s.used == 0)) (meaning.set_numbers config.entry.now.records css set ∷ [])) }
{
    let used = count_used(config, css, set, every);
    if used != 0 {
        let limit = u32::from(limit_in(config, css, set));
        numbers.push(SetNumbers {
            set,
            used: used as u64,
            limit,
        })?;
    }
    Ok(())
}

/// How many devices of a set a channel subsystem reaches.
fn count_used(config: &Config, css: Css, set: SetNo, every: &[DeviceRun<'_>]) -> usize
    requires runs { every.now ≡ runs (devices_of config.now.records) }
    requires few { sum_by (λ r. r.count) every.now < 2 ^ 64 }
    ensures { result ≡ length (reached_devices config.now.records css set) }
{
    let mut used = 0;
    for run in every {
        used = with_run(used, run.count(), is_in(config, css, set, run.first()));
    }
    used
}

/// Whether a device is of a set, and a channel subsystem reaches it.
fn is_in(config: &Config, css: Css, set: SetNo, device: &DeviceFields) -> bool
    ensures { result ≡ meaning.is_in (lookup_of config.now.records) css set (device_of device.now) }
{
    device.set == set && is_reached(config, css, device.lists.units())
}

/// Below which number the subchannels of a set stay in a channel subsystem.
fn limit_in(config: &Config, css: Css, set: SetNo) -> u16
    ensures { result ≡ rule.limit_or_default set (lookup_of config.now.records (Key.Limit css set)) }
{
    match config.get(&Key::Limit(css, set)) {
        Some(entry) => limit_of(entry, set),
        None => default_limit(set),
    }
}

fn limit_of(entry: &Record, set: SetNo) -> u16
    ensures { result ≡ rule.limit_or_default set (Some entry.now) }
{
    match entry.body() {
        RecordBody::Limit(_, _, limit) => *limit,
        _ => default_limit(set),
    }
}

fn default_limit(set: SetNo) -> u16
    ensures { result ≡ rule.default_limit set }
{
    if set.number() == 0 { 65280 } else { 65535 }
}
