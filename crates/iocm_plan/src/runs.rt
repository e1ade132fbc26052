ghost use Rattle.std.specs.Prelude.{◌≡◌, ◌+◌, ◌==◌, ◌++◌, ◌<◌, ◌^◌, sum_by, IfOk, OnOk};
ghost use Rattle.std.specs.Option.{option_copied, option_eq, option_map};
ghost use Rattle.iocm_record.specs.Meaning.{device_of};
ghost use Rattle.iocm_plan.specs.Runs as meaning;

use crate::both::devices_asked;
use crate::route::is_one_device;
use iocm_config::Config;
use iocm_derive::DeviceWalk;
use iocm_difference::are_same_candidates;
use iocm_filter::Filters;
use iocm_record::DeviceFields;
use iocm_sight::DeviceKey;
use iocm_types::DevNo;
use std::alloc::{AllocError, Global};

/// Devices of one set that follow each other, and to which a change does the same.
#[derive(Clone, Copy, PartialEq, Eq)]
pub struct DeviceRun {
    /// The first of them.
    pub first: DeviceKey,
    /// How many there are.
    pub count: usize,
}

/// The runs of the devices of two configurations that are in a range that filters ask for, in the order of keys. The
/// time is that of one walk over both, and of looking each device up.
///
/// `AllocError` (M1): memory ran out.
pub fn runs_asked(
    alloc: Global,
    filters: &Filters,
    old: &Config,
    new: &Config,
) -> Result<Vec<DeviceRun>, AllocError>
    ensures runs { IfOk result
        (λ runs. runs.items ≡ meaning.runs_asked filters.now old.now.records new.now.records) }
    ensures few { IfOk result (λ runs. sum_by (λ r. r.count) runs.items < 2 ^ 64) }
{
    let devices = devices_asked(alloc, filters, old, new)?;
    let runs = runs_among(alloc, old, new, &devices)?;
    Ok(runs)
}

/// The runs of devices that stand in the order of keys.
fn runs_among(
    alloc: Global,
    old: &Config,
    new: &Config,
    devices: &[DeviceKey],
) -> Result<Vec<DeviceRun>, AllocError>
    ensures { IfOk result (λ runs. runs.items ≡ meaning.runs_among old.now.records new.now.records devices.now) }
{
    let mut runs = Vec::new(alloc);
    if let [first, others @ ..] = devices {
        put_runs(&mut runs, old, new, *first, others)?;
    }
    Ok(runs)
}

/// Puts the runs of a device and of those behind it.
fn put_runs(
    runs: &mut Vec<DeviceRun>,
    old: &Config,
    new: &Config,
    first: DeviceKey,
    devices: &[DeviceKey],
) -> Result<(), AllocError>
    ensures { OnOk result (runs.new.items ≡ runs.old.items
        ++ meaning.runs_from old.now.records new.now.records (meaning.alone first) devices.now) }
{
    let mut first = first;
    let mut count = 1;
    for device in devices {
        if continues(old, new, &first, count, device) {
            count += 1;
            continue;
        }
        runs.push(DeviceRun { first, count })?;
        first = *device;
        count = 1;
    }
    runs.push(DeviceRun { first, count })?;
    Ok(())
}

/// Whether a device continues a run.
fn continues(
    old: &Config,
    new: &Config,
    first: &DeviceKey,
    count: usize,
    device: &DeviceKey,
) -> bool
    ensures { result ≡ meaning.continues old.now.records new.now.records
        (record { first = first.now; count = count }) device.now }
{
    device.set == first.set
        && is_after(first.number, count, device.number)
        && are_alike(old, new, first, device)
}

/// Whether a number is the next after so many others.
pub fn is_after(first: DevNo, count: usize, number: DevNo) -> bool
    ensures { result ≡ (number == first + count) }
{
    let number = usize::from(number.number());
    count <= number && number - count == usize::from(first.number())
}

/// Whether a change does the same to two devices.
fn are_alike(old: &Config, new: &Config, one: &DeviceKey, other: &DeviceKey) -> bool
    ensures { result ≡ meaning.are_alike old.now.records new.now.records one.now other.now }
{
    let (before, after) = (device_in(old, one), device_in(new, one));
    let (other_before, other_after) = (device_in(old, other), device_in(new, other));
    are_seen_alike(before, other_before)
        && are_seen_alike(after, other_after)
        && is_same_truth(is_kept(before, after), is_kept(other_before, other_after))
}

/// A device of a configuration, if it is there.
fn device_in<'a>(config: &'a Config, device: &DeviceKey) -> Option<&'a DeviceFields>
    ensures { option_map device_of (option_copied result)
        ≡ meaning.device_in config.entry.now.records device.entry.now }
{
    DeviceWalk::new(config).find(device.set, device.number)
}

/// Whether both hold, or neither.
pub fn is_same_truth(one: bool, other: bool) -> bool
    ensures { result ≡ meaning.same_truth one other }
{
    if one { other } else { !other }
}

/// Whether two devices have the same control units and candidates, or neither is there.
fn are_seen_alike(one: Option<&DeviceFields>, other: Option<&DeviceFields>) -> bool
    ensures { result ≡ option_eq meaning.is_seen_alike (option_map device_of (option_copied one.entry))
        (option_map device_of (option_copied other.entry)) }
{
    match (one, other) {
        (Some(device), Some(another)) => is_seen_alike(device, another),
        (None, None) => true,
        _ => false,
    }
}

/// Whether two devices have the same control units and candidates.
fn is_seen_alike(one: &DeviceFields, other: &DeviceFields) -> bool
    ensures { result ≡ meaning.is_seen_alike (device_of one.now) (device_of other.now) }
{
    one.lists.units() == other.lists.units()
        && are_same_candidates(one.lists.candidates(), other.lists.candidates())
}

/// Whether a device is there before and after, with one unit address and the same operands.
fn is_kept(before: Option<&DeviceFields>, after: Option<&DeviceFields>) -> bool
    ensures { result ≡ meaning.is_kept (option_map device_of (option_copied before.entry))
        (option_map device_of (option_copied after.entry)) }
{
    match (before, after) {
        (Some(before), Some(after)) => is_one_device(before, after),
        _ => false,
    }
}
