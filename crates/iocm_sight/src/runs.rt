ghost use Rattle.std.specs.Prelude.{◌≡◌, ◌+◌, ◌++◌, ◌<◌, ◌^◌, if◌then◌else◌, map, filter, sum_by, IfOk, OnOk};
ghost use Rattle.std.specs.Option.{option_copied, option_map};
ghost use Rattle.iocm_model.specs.Machine.Configuration.{as_device, devices_of};
ghost use Rattle.iocm_record.specs.Meaning.{device_of};
ghost use Rattle.iocm_deck_writer.specs.Device as written;
ghost use Rattle.iocm_sight.specs.Fits.{AreDevices};
ghost use Rattle.iocm_sight.specs.WantedRows.{wants_number};

use iocm_config::Config;
use iocm_deck_writer::continues;
use iocm_filter::Filters;
use iocm_record::{DeviceFields, Record, RecordBody};
use std::alloc::{AllocError, Global};
use std::marker::Model;

/// Devices that follow each other, as they are written in one statement. Contracts see the first and
/// how many there are.
#[derive(Drop)]
pub struct DeviceRun<'a> {
    first: &'a DeviceFields,
    count: usize,
}

impl<'a> Model for DeviceRun<'a> {
    ghost use Rattle.iocm_record.specs.Meaning.{device_of};
    ghost use Rattle.iocm_deck_writer.specs.Device.{Run};

    ghost Value = { Run };

    ghost view = { λ r. record { first = device_of r.first.now; count = r.count } };

    ghost use Rattle.iocm_sight.specs.Fits.{AreDevices};

    ghost invariant = { λ r. AreDevices r.first.now.number r.first.now.unit_address r.count };
}

impl<'a> DeviceRun<'a> {
    /// The first device.
    pub fn first(&self) -> &'a DeviceFields
        ensures { device_of result.now ≡ self.now.first }
    {
        self.first
    }

    /// How many there are.
    pub fn count(&self) -> usize
        ensures count { result ≡ self.now.count }
        ensures fits { AreDevices self.now.first.number self.now.first.unit_address result }
    {
        self.count
    }
}

/// The runs of the devices in the ranges that are asked for, in the order of their keys. The time is
/// that of a walk over the records.
///
/// `AllocError` (M1): memory ran out.
pub fn runs_asked<'a>(
    alloc: Global,
    filters: &Filters,
    config: &'a Config,
) -> Result<Vec<DeviceRun<'a>>, AllocError>
    ensures runs { IfOk result (λ runs. runs.items
        ≡ written.runs (filter (wants_number filters.entry.now) (devices_of config.entry.now.records))) }
    ensures few { IfOk result (λ runs. sum_by (λ r. r.count) runs.items < 2 ^ 64) }
{
    let devices = devices_asked(alloc, filters, config)?;
    let runs = runs_of(alloc, &devices)?;
    Ok(runs)
}

/// The runs of all devices, in the order of their keys.
///
/// `AllocError` (M1): memory ran out.
pub fn all_runs<'a>(alloc: Global, config: &'a Config) -> Result<Vec<DeviceRun<'a>>, AllocError>
    ensures runs { IfOk result (λ runs. runs.items ≡ written.runs (devices_of config.entry.now.records)) }
    ensures few { IfOk result (λ runs. sum_by (λ r. r.count) runs.items < 2 ^ 64) }
{
    let devices = all_devices(alloc, config)?;
    let runs = runs_of(alloc, &devices)?;
    Ok(runs)
}

fn all_devices<'a>(alloc: Global, config: &'a Config) -> Result<Vec<&'a DeviceFields>, AllocError>
    ensures { IfOk result
        (λ devices. map (λ d. device_of d.now) devices.items ≡ devices_of config.entry.now.records) }
{
    let mut devices = Vec::new(alloc);
    for (_, entry) in config.walk() {
        if let Some(device) = device_in(entry) {
            devices.push(device)?;
        }
    }
    Ok(devices)
}

/// The devices in the ranges that are asked for.
fn devices_asked<'a>(
    alloc: Global,
    filters: &Filters,
    config: &'a Config,
) -> Result<Vec<&'a DeviceFields>, AllocError>
    ensures { IfOk result (λ devices. map (λ d. device_of d.now) devices.items
        ≡ filter (wants_number filters.entry.now) (devices_of config.entry.now.records)) }
{
    let mut devices = Vec::new(alloc);
    for (_, entry) in config.walk() {
        if let Some(device) = device_in(entry) {
            if filters.wants_number(device.set, device.number) {
                devices.push(device)?;
            }
        }
    }
    Ok(devices)
}

/// The device of a record, if it is that of one.
fn device_in(entry: &Record) -> Option<&DeviceFields>
    ensures { option_map device_of (option_copied result) ≡ as_device entry.now }
{
    match entry.body() {
        RecordBody::Device(fields) => Some(fields),
        _ => None,
    }
}

/// The runs of devices that stand in the order of their keys.
fn runs_of<'a>(
    alloc: Global,
    devices: &[&'a DeviceFields],
) -> Result<Vec<DeviceRun<'a>>, AllocError>
    ensures { IfOk result (λ runs. runs.items ≡ written.runs (map (λ d. device_of d.now) devices.entry.now)) }
{
    let mut runs = Vec::new(alloc);
    if devices.is_empty() {
        return Ok(runs);
    }
    let (_, others) = devices.split_at(1);
    put_runs(&mut runs, devices[0], others)?;
    Ok(runs)
}

/// Puts the runs of a device and of those behind it.
fn put_runs<'a>(
    runs: &mut Vec<DeviceRun<'a>>,
    first: &'a DeviceFields,
    devices: &[&'a DeviceFields],
) -> Result<(), AllocError>
    ensures { OnOk result (runs.new.items ≡ runs.old.items ++ written.runs_from
        (record { first = device_of first.entry.now; count = 1 }) (map (λ d. device_of d.now) devices.entry.now)) }
{
    is_there(first);
    let mut run = first;
    let mut count = 1;
    for device in devices {
        is_there(device);
        if continues(run, count, device) {
            count += 1;
            continue;
        }
        runs.push(DeviceRun { first: run, count })?;
        run = *device;
        count = 1;
    }
    runs.push(DeviceRun { first: run, count })?;
    Ok(())
}

/// A count with that of a run, if this is counted.
pub fn with_run(count: usize, run: usize, is_counted: bool) -> usize
    requires { count + (if is_counted then run else 0) < 2 ^ 64 }
    ensures { result ≡ count + (if is_counted then run else 0) }
{
    if is_counted { count + run } else { count }
}

/// The number and the unit address of a device are in their ranges: for the proof alone.
fn is_there(device: &DeviceFields)
    ensures { AreDevices device.now.number device.now.unit_address 1 }
{
    let _number = device.number.number();
    let _address = device.unit_address;
}
