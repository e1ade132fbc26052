ghost use Rattle.std.specs.Prelude.{◌≡◌};
ghost use Rattle.std.specs.Option.{option_map};
ghost use Rattle.iocm_model.specs.Machine.Configuration.{lookup_of};
ghost use Rattle.iocm_record.specs.Meaning.{device_of};
ghost use Rattle.iocm_plan.specs.Seen as meaning;
ghost use Rattle.iocm_plan.specs.Sides.{side_of, sighted};

use crate::side::Side;
use iocm_config::Config;
use iocm_derive::{DeviceWalk, ImageSight};
use iocm_record::{DeviceFields, RecordBody};
use iocm_types::{DevNo, Image, Key, Name, SetNo};
use std::alloc::Global;
use std::marker::Model;

/// An image of a configuration with its name, whose sides with many devices, one after the other, follow quickly.
/// Contracts see the configuration and the image.
#[derive(Drop)]
pub struct Sight<'a> {
    config: &'a Config,
    name: Name,
    sight: ImageSight<'a, Global>,
}

impl<'a> Model for Sight<'a> {
    ghost use Rattle.std.specs.Prelude.{◌≡◌, refl};
    ghost use Rattle.std.specs.FinMap as map;
    ghost use Rattle.std.specs.Coded.{code_by, coded×, codes};
    ghost use Rattle.iocm_model.specs.Machine.Record.{ImageRecord};
    ghost use Rattle.iocm_model.specs.Machine.Configuration.{Configuration};
    ghost use Rattle.iocm_derive.specs.Sighted.{Sighted};

    ghost Value = { Sighted };

    ghost coded = { code_by (Configuration × ImageRecord)
        (coded× (map.code (Prim.hlevel codes) (Prim.hlevel codes)) (Prim.hlevel codes))
        (λ s. (s.records, s.image)) (λ p. record { records = p.0; image = p.1 }) (λ _. refl) };

    ghost view = { λ s. s.sight };

    ghost invariant = { λ s. (s.sight.image.name ≡ s.name) × (s.sight.records ≡ s.config.now.records) };
}

impl<'a> Sight<'a> {
    /// The image of this name in a configuration.
    pub fn new(config: &'a Config, image: Image, name: Name) -> Self
        ensures { result ≡ sighted config.entry.now.records
            (record { css = image.css; mif = image.mif; name = name }) }
    {
        Sight {
            config,
            name,
            sight: ImageSight::new(config, image, name),
        }
    }

    /// The image with a device of the configuration, and what it sees of it. One on the same control units as the
    /// last one is quickly answered.
    pub fn side(&mut self, device: &'a DeviceFields) -> Side<'a>
        ensures side { side_of result
            ≡ meaning.side_with (lookup_of self.old.records) (device_of device.now) self.old.image }
        ensures same { self.new ≡ self.old }
    {
        Side {
            config: self.config,
            image: self.sight.image(),
            name: self.name,
            device,
            view: self.sight.view_of(device),
        }
    }
}

/// The image at a place of a configuration, if it is there.
pub fn sight_at(config: &Config, image: Image) -> Option<Sight<'_>>
    ensures { result ≡ option_map (sighted config.entry.now.records)
        (meaning.image_record (lookup_of config.entry.now.records) image) }
{
    match config.get(&Key::Image(image.css, image.mif))?.body() {
        RecordBody::Image(css, mif, name) => {
            let (css, mif, name) = (*css, *mif, *name);
            Some(Sight::new(config, Image { css, mif }, name))
        }
        _ => None,
    }
}

/// The image at a place of a configuration and the device of a number in a set, if both are there.
pub fn side_at(config: &Config, image: Image, set: SetNo, device: DevNo) -> Option<Side<'_>>
    ensures { option_map side_of result
        ≡ meaning.side (lookup_of config.entry.now.records) image set device }
{
    let fields = DeviceWalk::new(config).find(set, device)?;
    let mut sight = sight_at(config, image)?;
    Some(sight.side(fields))
}
