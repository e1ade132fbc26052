ghost use Rattle.std.specs.Prelude.{◌≡◌, ℕ, ◌++◌, OnOk, IfOk};
ghost use Rattle.iocm_model.specs.Machine.Numbering as model;
ghost use Rattle.iocm_model.specs.Machine.Numbering.{numbers_from};
ghost use Rattle.iocm_numbers.specs.Opening.{RiseFrom, is_numbered, numbered, rows_of, rows_at_opening};

use crate::Numbers;
use crate::device_reach::DeviceReach;
use crate::gathered::gather_devices;
use iocm_config::Config;
use iocm_types::{Css, Place, SetNo};
use std::alloc::{AllocError, Allocator};

/// The numbers at opening: in each channel subsystem and subchannel set 0, 1, 2, .. for the devices
/// that are reached there, in the order of device numbers.
///
/// `AllocError` (M1): memory ran out.
pub fn opening<A: Allocator, B: Allocator + Copy>(
    alloc: B,
    config: &Config<A>,
) -> Result<Numbers<B>, AllocError>
    ensures { IfOk result (λ n. n.numbers ≡ model.opening config.now.records) }
{
    // For the proof alone: each record stands under its own key, so no place comes twice.
    config.has_own_keys();
    let rows = opening_rows(alloc, config)?;
    Numbers::from_rows(alloc, rows)
}

/// The numbers at opening as a list: each place with its number, by channel subsystem, set and
/// device number.
///
/// `AllocError` (M1): memory ran out.
pub fn opening_rows<A: Allocator, B: Allocator + Copy>(
    alloc: B,
    config: &Config<A>,
) -> Result<Vec<(Place, u16), B>, AllocError>
    ensures { IfOk result (λ rows. rows.items ≡ rows_at_opening config.now.records) }
{
    // For the proof alone: each record stands under its own key, so device numbers rise in each
    // set.
    config.has_own_keys();
    let devices = gather_devices(alloc, config)?;
    let mut rows = Vec::new(alloc);
    for number in 0..6u8 {
        let Some(css) = Css::new(number) else {
            unreachable!()
        };
        number_subsystem(&mut rows, devices.as_slice(), css)?;
    }
    Ok(rows)
}

/// Puts the rows of one channel subsystem behind those that are there.
fn number_subsystem<B: Allocator>(
    rows: &mut Vec<(Place, u16), B>,
    devices: &[DeviceReach],
    css: Css,
) -> Result<(), AllocError>
    requires { (set : ℕ) → RiseFrom 0 (numbered css set devices.now) }
    ensures { OnOk result (rows.new.items ≡ rows.old.items ++ rows_of css devices.now) }
{
    for number in 0..4u8 {
        let Some(set) = SetNo::new(number) else {
            unreachable!()
        };
        number_set(rows, devices, css, set)?;
    }
    Ok(())
}

/// Puts the rows of one set of a channel subsystem behind those that are there: 0, 1, 2, .. for its
/// devices that are reached.
fn number_set<B: Allocator>(
    rows: &mut Vec<(Place, u16), B>,
    devices: &[DeviceReach],
    css: Css,
    set: SetNo,
) -> Result<(), AllocError>
    requires { RiseFrom 0 (numbered css set devices.now) }
    ensures { OnOk result (rows.new.items ≡ rows.old.items ++ numbers_from css set 0 (numbered css set devices.now)) }
{
    let mut next = 0u32;
    for device in devices {
        if is_numbered(device, css, set) {
            // For the proof alone: the next number is no higher than the device's, which has 16
            // bits, so it fits.
            let _highest = device.number.number();
            let place = Place {
                css,
                set,
                device: device.number,
            };
            rows.push((place, next as u16))?;
            next += 1;
        }
    }
    Ok(())
}

/// Whether a device is of a set, and a channel subsystem reaches it.
fn is_numbered(device: &DeviceReach, css: Css, set: SetNo) -> bool
    ensures { result ≡ is_numbered css set device.now }
{
    device.set == set && device.reached[usize::from(css.number())]
}
