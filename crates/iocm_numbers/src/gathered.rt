ghost use Rattle.std.specs.Prelude.{◌≡◌, map, IfOk};
ghost use Rattle.std.specs.Option.{option_copied, option_map};
ghost use Rattle.iocm_model.specs.Machine.Configuration.{lookup_of, as_device, devices_of};
ghost use Rattle.iocm_record.specs.Meaning.{device_of};
ghost use Rattle.iocm_numbers.specs.Opening.{reach_by, reach_of};

use crate::device_reach::DeviceReach;
use crate::reached::is_reached;
use iocm_config::Config;
use iocm_record::{DeviceFields, Record, RecordBody};
use iocm_types::{Css, UnitNo};
use std::alloc::{AllocError, Allocator};

/// Some units, and for each channel subsystem whether it reaches devices on them. The word is own.
#[derive(Drop)]
struct UnitsReach<'a> {
    units: &'a [UnitNo],
    reached: [bool; 6],
}

/// All devices, by set and number, with the channel subsystems that reach them. Units are looked up
/// where they differ from those of the device before.
pub fn gather_devices<A: Allocator, B: Allocator>(
    alloc: B,
    config: &Config<A>,
) -> Result<Vec<DeviceReach, B>, AllocError>
    ensures { IfOk result (λ devices. devices.items
        ≡ map (reach_of (lookup_of config.now.records)) (devices_of config.now.records)) }
{
    let mut devices = Vec::new(alloc);
    let mut last = UnitsReach {
        units: &[],
        reached: [false; 6],
    };
    for (_, entry) in config.walk() {
        let Some(fields) = device_fields(entry) else {
            continue;
        };
        let units = fields.lists.units();
        let reached = reached_by(config, &last, units);
        last = UnitsReach { units, reached };
        devices.push(DeviceReach {
            set: fields.set,
            number: fields.number,
            reached,
        })?;
    }
    Ok(devices)
}

/// The device of a record, if it is that of one.
fn device_fields<A: Allocator>(entry: &Record<A>) -> Option<&DeviceFields<A>>
    ensures { option_map device_of (option_copied result) ≡ as_device entry.now }
{
    match entry.body() {
        RecordBody::Device(fields) => Some(fields),
        _ => None,
    }
}

/// For each channel subsystem, whether it reaches devices on these units, where it is known of the
/// last ones.
fn reached_by<A: Allocator>(config: &Config<A>, last: &UnitsReach, units: &[UnitNo]) -> [bool; 6]
    requires { last.now.reached ≡ reach_by (lookup_of config.now.records) last.now.units.now }
    ensures { result ≡ reach_by (lookup_of config.now.records) units.now }
{
    if units == last.units {
        return last.reached;
    }
    look_up(config, units)
}

/// For each channel subsystem, whether it reaches devices on these units.
fn look_up<A: Allocator>(config: &Config<A>, units: &[UnitNo]) -> [bool; 6]
    ensures { result ≡ reach_by (lookup_of config.now.records) units.now }
{
    let mut reached = [false; 6];
    for number in 0..6u8 {
        let Some(css) = Css::new(number) else {
            unreachable!()
        };
        reached[usize::from(number)] = is_reached(config, css, units);
    }
    reached
}
