ghost use Rattle.std.specs.Prelude.{◌≡◌};
ghost use Rattle.iocm_model.specs.Machine.Configuration.{lookup_of};
ghost use Rattle.iocm_model.specs.Machine.View as model;
ghost use Rattle.iocm_record.specs.Meaning.{device_of};

use crate::device_walk::DeviceWalk;
use crate::path_tables::{PathTables, path_tables};
use crate::paths::next_paths_of_units;
use crate::reach::{ImageRecords, Reach};
use crate::units_view::{UnitsView, are_same, units_view, view_by};
use iocm_config::{Config, RecordWalk};
use iocm_record::DeviceFields;
use iocm_types::{Chpid, Css, DevNo, Image, Mask, Name, Paths, SetNo, View};
use std::alloc::Allocator;
use std::marker::Model;

/// An image of a configuration, with the paths that it reaches and those that are online to it
/// looked up once, and with what it sees of the last device kept for the next: its views of many
/// devices, one after the other, follow quickly. Contracts see the configuration and the image.
#[derive(Drop)]
pub struct ImageSight<'a, A: Allocator> {
    config: &'a Config<A>,
    image: Image,
    name: Name,
    tables: PathTables,
    devices: DeviceWalk<'a, A>,
    /// The records of control units.
    units: RecordWalk<'a, A>,
    /// What the image sees by the units of the last device.
    last: UnitsView<'a>,
}

impl<'a, A: Allocator> Model for ImageSight<'a, A> {
    ghost use Rattle.std.specs.Prelude.{refl};
    ghost use Rattle.std.specs.FinMap as map;
    ghost use Rattle.std.specs.Coded.{code_by, coded×, codes};
    ghost use Rattle.iocm_model.specs.Machine.Record.{ImageRecord};
    ghost use Rattle.iocm_model.specs.Machine.Configuration.{Configuration};
    ghost use Rattle.iocm_derive.specs.Sighted.{Sighted, IsSighted};

    ghost Value = { Sighted };

    ghost coded = { code_by (Configuration × ImageRecord)
        (coded× (map.code (Prim.hlevel codes) (Prim.hlevel codes)) (Prim.hlevel codes))
        (λ s. (s.records, s.image)) (λ p. record { records = p.0; image = p.1 }) (λ _. refl) };

    ghost view = { λ s. record {
      records = s.config.now.records;
      image = record { css = s.image.css; mif = s.image.mif; name = s.name };
    } };

    ghost invariant = { λ s. IsSighted s.config.now.records s.image.css s.name s.tables s.devices s.units s.last };
}

impl<'a, A: Allocator> ImageSight<'a, A> {
    /// The image of this name in a configuration.
    pub fn new(config: &'a Config<A>, image: Image, name: Name) -> Self
        ensures { result ≡ record {
          records = config.entry.now.records;
          image = record { css = image.css; mif = image.mif; name = name };
        } }
    {
        let records = ImageRecords::new(config, image.css, name);
        ImageSight {
            config,
            image,
            name,
            tables: path_tables(config, image.css, name),
            devices: DeviceWalk::new(config),
            units: RecordWalk::new(config),
            last: units_view(&records, &[], Paths::new()),
        }
    }

    /// The image whose views these are.
    pub fn image(&self) -> Image
        ensures { result ≡ record { css = self.now.image.css; mif = self.now.image.mif } }
    {
        self.image
    }

    /// What the image sees of the device of a number in a set, if it is there and seen. A device
    /// next to the last one, or on the same units, is quickly answered.
    pub fn view(&mut self, set: SetNo, device: DevNo) -> Option<View>
        ensures view { result ≡ model.image_view (lookup_of self.old.records) self.old.image set device }
        ensures same { self.new ≡ self.old }
    {
        let fields = self.devices.find(set, device)?;
        self.view_of(fields)
    }

    /// What the image sees of a device of the configuration, if it sees it. One on the same units
    /// as the last one is quickly answered.
    pub fn view_of(&mut self, fields: &'a DeviceFields<A>) -> Option<View>
        ensures view { result ≡ model.view_if_seen (lookup_of self.old.records) self.old.image.css
            self.old.image.name (device_of fields.now) }
        ensures same { self.new ≡ self.old }
    {
        let units = fields.lists.units();
        if !are_same(self.last.units, units) {
            let paths = next_paths_of_units(&mut self.units, self.image.css, units);
            self.last = units_view(self, units, paths);
        }
        view_by(self, &self.last, fields)
    }
}

impl<'a, A: Allocator> Reach<A> for ImageSight<'a, A> {
    ghost records = { λ s. s.records };

    ghost subsystem = { λ s. s.image.css };

    ghost called = { λ s. s.image.name };

    fn config(&self) -> &Config<A> {
        self.config
    }

    fn css(&self) -> Css {
        self.image.css
    }

    fn name(&self) -> Name {
        self.name
    }

    fn reaches(&self, path: Chpid) -> bool {
        self.tables.reached[usize::from(path.number())]
    }

    fn is_online(&self, path: Chpid) -> bool {
        self.tables.online[usize::from(path.number())]
    }
}
