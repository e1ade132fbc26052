ghost use Rattle.std.specs.Prelude.{◌≡◌, ◌↔◌, IsTrue};
ghost use Rattle.std.specs.Option.{option_copied, option_map};
ghost use Rattle.iocm_model.specs.Machine.Configuration.{lookup_of};
ghost use Rattle.iocm_record.specs.Meaning.{device_of};
ghost use Rattle.iocm_console.specs.Alike.{AreAlike, IsThere, devices_of, seen_by};

use iocm_config::Config;
use iocm_derive::DeviceWalk;
use iocm_record::DeviceFields;
use iocm_types::{DevNo, List, Name, SetNo, UnitNo};
use std::alloc::Allocator;

/// A device of a configuration, if it is there, which those after it are compared with.
#[derive(Drop)]
pub(crate) struct LikeDevice<'a, A: Allocator> {
    /// The devices after it.
    devices: DeviceWalk<'a, A>,
    set: SetNo,
    device: DevNo,
    fields: Option<&'a DeviceFields<A>>,
}

impl<'a, A: Allocator> LikeDevice<'a, A> {
    /// The device of number 0 in the first set.
    pub fn first(config: &'a Config<A>) -> Self
        ensures there { IsThere result }
        ensures records { devices_of result ≡ config.entry.now.records }
    {
        let mut devices = DeviceWalk::new(config);
        let set = SetNo::FIRST;
        let device = DevNo::new(0);
        let fields = devices.find(set, device);
        LikeDevice {
            devices,
            set,
            device,
            fields,
        }
    }
}

/// The first of the devices of a set that follow each other and are like this one: `last`, if that
/// is, or the device itself, which is then compared with those after it.
pub(crate) fn first_like<A: Allocator>(
    last: &mut LikeDevice<'_, A>,
    set: SetNo,
    device: DevNo,
) -> DevNo
    requires { IsThere last.old }
    ensures there { IsThere last.new }
    ensures records { devices_of last.new ≡ devices_of last.old }
    ensures alike { AreAlike (lookup_of (devices_of last.old)) set result device }
{
    let fields = last.devices.find(set, device);
    if last.set == set && are_alike(last.fields, fields) {
        return last.device;
    }
    last.set = set;
    last.device = device;
    last.fields = fields;
    device
}

/// Whether two devices have the same control units and the same candidates, or neither is there.
fn are_alike<A: Allocator>(a: Option<&DeviceFields<A>>, b: Option<&DeviceFields<A>>) -> bool
    ensures { IsTrue result ↔ (option_map seen_by (option_map device_of (option_copied a.entry))
        ≡ option_map seen_by (option_map device_of (option_copied b.entry))) }
{
    match (a, b) {
        (None, None) => true,
        (Some(a), Some(b)) => {
            are_same_units(a.lists.units(), b.lists.units())
                && are_same_candidates(a.lists.candidates(), b.lists.candidates())
        }
        _ => false,
    }
}

fn are_same_units(a: &[UnitNo], b: &[UnitNo]) -> bool
    ensures { IsTrue result ↔ (a.now ≡ b.now) }
{
    a == b
}

/// Whether two lists of candidates are the same, or there is neither.
fn are_same_candidates<A: Allocator>(a: Option<&List<Name, A>>, b: Option<&List<Name, A>>) -> bool
    ensures { IsTrue result ↔ (option_copied a.entry ≡ option_copied b.entry) }
{
    match (a, b) {
        (None, None) => true,
        (Some(a), Some(b)) => are_same_names(a.as_slice(), b.as_slice()),
        _ => false,
    }
}

fn are_same_names(a: &[Name], b: &[Name]) -> bool
    ensures { IsTrue result ↔ (a.now ≡ b.now) }
{
    a == b
}
