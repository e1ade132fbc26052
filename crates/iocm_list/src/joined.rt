ghost use Rattle.std.specs.Prelude.{◌≡◌, ◌++◌, IfOk, OnOk};
ghost use Rattle.iocm_list.specs.Joined as meaning;

use iocm_sight::DeviceKey;
use iocm_words::DeviceNumbers;
use std::alloc::{AllocError, Global};

/// The ranges of devices that are listed in the order of their keys: those of one subchannel set whose
/// numbers follow each other are in one range.
///
/// `AllocError` (M1): memory ran out.
pub fn joined_ranges(alloc: Global, devices: &[DeviceKey]) -> Result<Vec<DeviceNumbers>, AllocError>
    ensures { IfOk result (λ ranges. ranges.items ≡ meaning.joined_ranges devices.now) }
{
    let mut ranges = Vec::new(alloc);
    if let [first, rest @ ..] = devices {
        put_joined(&mut ranges, alone(first), rest)?;
    }
    Ok(ranges)
}

/// Puts a range, made longer by the devices that follow it, and the ranges of the others behind those
/// that are listed.
fn put_joined(
    ranges: &mut Vec<DeviceNumbers>,
    first: DeviceNumbers,
    devices: &[DeviceKey],
) -> Result<(), AllocError>
    ensures { OnOk result (ranges.new.items ≡ ranges.old.items ++ meaning.joined_from first devices.now) }
{
    let mut range = first;
    for device in devices {
        if follows(&range, device) {
            range = with_last(&range, device);
            continue;
        }
        ranges.push(range)?;
        range = alone(device);
    }
    ranges.push(range)?;
    Ok(())
}

fn alone(device: &DeviceKey) -> DeviceNumbers
    ensures { result ≡ meaning.alone device.now }
{
    let (set, first, last) = (device.set, device.number, device.number);
    DeviceNumbers { set, first, last }
}

fn with_last(range: &DeviceNumbers, device: &DeviceKey) -> DeviceNumbers
    ensures { result ≡ meaning.with_last range.now device.now }
{
    let (set, first, last) = (range.set, range.first, device.number);
    DeviceNumbers { set, first, last }
}

/// Whether a device is the next after a range.
fn follows(range: &DeviceNumbers, device: &DeviceKey) -> bool
    ensures { result ≡ meaning.follows range.now device.now }
{
    let next = u32::from(range.last.number()) + 1;
    range.set == device.set && u32::from(device.number.number()) == next
}
