ghost use Rattle.std.specs.Prelude.{◌≡◌, not, Some};
ghost use Rattle.iocm_model.specs.Machine.Configuration.{lookup_of};
ghost use Rattle.iocm_model.specs.Machine.Numbering.{is_empty, is_record_reached, is_reached_at};
ghost use Rattle.iocm_model.specs.Machine.PathList.{path_list};

use crate::last_record::LastRecord;
use crate::reached::has_path;
use iocm_config::Config;
use iocm_record::{Record, RecordBody};
use iocm_types::{Css, Key, Place, UnitNo};
use std::alloc::Allocator;
use std::marker::Model;

/// Tells of one place after the other whether it is reached. The device and the control unit that
/// were looked up last are kept: so the places of one device, one after the other, mostly take one
/// search of each. Contracts see the configuration.
#[derive(Drop)]
pub(crate) struct PlaceWalk<'a, A: Allocator> {
    devices: LastRecord<'a, A>,
    units: LastRecord<'a, A>,
}

impl<'a, A: Allocator> Model for PlaceWalk<'a, A> {
    ghost use Rattle.std.specs.Prelude.{◌≡◌};
    ghost use Rattle.std.specs.FinMap as map;
    ghost use Rattle.std.specs.Coded.{codes};
    ghost use Rattle.iocm_model.specs.Machine.Configuration.{Configuration, IsKeyed};

    ghost Value = { Configuration };

    ghost coded = { map.code (Prim.hlevel codes) (Prim.hlevel codes) };

    ghost view = { λ w. w.devices };

    ghost invariant = { λ w. (w.units ≡ w.devices) × IsKeyed w.devices };
}

impl<'a, A: Allocator> PlaceWalk<'a, A> {
    /// That of a configuration, before the first place.
    pub fn new(config: &'a Config<A>) -> Self
        ensures { result ≡ config.entry.now.records }
    {
        // For the proof alone: each record stands under its own key.
        config.has_own_keys();
        PlaceWalk {
            devices: LastRecord::new(config),
            units: LastRecord::new(config),
        }
    }

    /// Whether a place is that of a device that is there and reached.
    pub fn is_reached(&mut self, place: &Place) -> bool
        ensures reached { result ≡ is_reached_at self.old place.now }
        ensures same { self.new ≡ self.old }
    {
        // For the proof alone: the place's numbers are in their ranges.
        let _css = place.css.number();
        let _set = place.set.number();
        match self.devices.find(&Key::Device(place.set, place.device)) {
            Some(entry) => is_device_reached(&mut self.units, place.css, entry),
            None => false,
        }
    }
}

/// Whether a record is that of a device that a channel subsystem reaches.
fn is_device_reached<A: Allocator>(
    units: &mut LastRecord<'_, A>,
    css: Css,
    entry: &Record<A>,
) -> bool
    ensures reached { result ≡ is_record_reached (lookup_of units.old) css (Some entry.now) }
    ensures same { units.new ≡ units.old }
{
    match entry.body() {
        RecordBody::Device(fields) => is_one_reaching(units, css, fields.lists.units()),
        _ => false,
    }
}

/// Whether a channel subsystem reaches devices on these units: one of them has a path there.
fn is_one_reaching<A: Allocator>(
    units: &mut LastRecord<'_, A>,
    css: Css,
    numbers: &[UnitNo],
) -> bool
    ensures reached { result ≡ not (is_empty (path_list (lookup_of units.old) css numbers.now)) }
    ensures same { units.new ≡ units.old }
{
    for unit in numbers {
        if has_path(units.find(&Key::Unit(*unit)), css) {
            return true;
        }
    }
    false
}
