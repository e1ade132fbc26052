ghost use Rattle.std.specs.Prelude.{◌≡◌};
ghost use Rattle.std.specs.Option.{option_copied, option_map};
ghost use Rattle.iocm_model.specs.Machine.Configuration.{lookup_of};
ghost use Rattle.iocm_model.specs.Machine.View as model;
ghost use Rattle.iocm_record.specs.Meaning.{device_of};

use crate::lookup::device_fields;
use iocm_config::{Config, RecordWalk};
use iocm_record::DeviceFields;
use iocm_types::{DevNo, Key, SetNo};
use std::alloc::Allocator;
use std::marker::Model;

/// The devices of a configuration, found one after the other: the one after the last is found
/// without a search. Contracts see the configuration.
#[derive(Drop)]
pub struct DeviceWalk<'a, A: Allocator> {
    records: RecordWalk<'a, A>,
}

impl<'a, A: Allocator> Model for DeviceWalk<'a, A> {
    ghost use Rattle.std.specs.FinMap as map;
    ghost use Rattle.std.specs.Coded.{codes};
    ghost use Rattle.iocm_model.specs.Machine.Configuration.{Configuration};

    ghost Value = { Configuration };

    ghost coded = { map.code (Prim.hlevel codes) (Prim.hlevel codes) };

    ghost view = { λ w. w.records };
}

impl<'a, A: Allocator> DeviceWalk<'a, A> {
    /// The devices of a configuration, before the first.
    pub fn new(config: &'a Config<A>) -> Self
        ensures { result ≡ config.entry.now.records }
    {
        DeviceWalk {
            records: RecordWalk::new(config),
        }
    }

    /// The device of a number in a set, if there is one. The time is that of a search, but for the
    /// device after the last one.
    pub fn find(&mut self, set: SetNo, device: DevNo) -> Option<&'a DeviceFields<A>>
        ensures device { option_map device_of (option_copied result)
            ≡ model.device_record (lookup_of self.old) set device }
        ensures same { self.new ≡ self.old }
    {
        device_fields(self.records.find(&Key::Device(set, device))?)
    }
}
