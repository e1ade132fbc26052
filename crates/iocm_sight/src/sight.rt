ghost use Rattle.std.specs.Prelude.{◌≡◌, [], ◌∷◌, ◌++◌, IfOk, OnOk};
ghost use Rattle.std.specs.List.{filter_map};
ghost use Rattle.iocm_model.specs.Machine.Configuration.{lookup_of, records_of};
ghost use Rattle.iocm_model.specs.Machine.View.{view_if_seen};
ghost use Rattle.iocm_record.specs.Meaning.{device_of};
ghost use Rattle.iocm_sight.specs.Seen as meaning;

use crate::SeenBy;
use crate::wanted_rows::wants_image;
use iocm_config::Config;
use iocm_derive::ImageSight;
use iocm_filter::Filters;
use iocm_record::{DeviceFields, Record, RecordBody};
use iocm_types::{Image, Name, View};
use std::alloc::{AllocError, Global};
use std::marker::Model;

/// An image of a configuration with its name, whose views of many devices, one after the other, follow
/// quickly. Contracts see the configuration and the image.
#[derive(Drop)]
pub struct NamedSight<'a> {
    sight: ImageSight<'a, Global>,
    name: Name,
}

impl<'a> Model for NamedSight<'a> {
    ghost use Rattle.std.specs.Prelude.{◌≡◌, refl};
    ghost use Rattle.std.specs.FinMap as map;
    ghost use Rattle.std.specs.Coded.{code_by, coded×, codes};
    ghost use Rattle.iocm_model.specs.Machine.Record.{ImageRecord};
    ghost use Rattle.iocm_model.specs.Machine.Configuration.{Configuration};
    ghost use Rattle.iocm_derive.specs.Sighted.{Sighted};

    ghost Value = { Sighted };

    ghost coded = { code_by (Configuration × ImageRecord)
        (coded× (map.code (Prim.hlevel codes) (Prim.hlevel codes)) (Prim.hlevel codes))
        (λ s. (s.records, s.image)) (λ p. record { records = p.0; image = p.1 }) (λ _. refl) };

    ghost view = { λ s. s.sight };

    ghost invariant = { λ s. s.sight.image.name ≡ s.name };
}

impl<'a> NamedSight<'a> {
    /// The image of this name in a configuration.
    pub fn new(config: &'a Config, image: Image, name: Name) -> Self
        ensures { result ≡ record {
          records = config.entry.now.records;
          image = record { css = image.css; mif = image.mif; name = name };
        } }
    {
        NamedSight {
            sight: ImageSight::new(config, image, name),
            name,
        }
    }

    /// Its name.
    pub fn name(&self) -> Name
        ensures { result ≡ self.now.image.name }
    {
        self.name
    }

    /// The image.
    pub fn image(&self) -> Image
        ensures { result ≡ record { css = self.now.image.css; mif = self.now.image.mif } }
    {
        self.sight.image()
    }

    /// What the image sees of a device of the configuration, if it sees it. One on the same units as
    /// the last one is quickly answered.
    pub fn view_of(&mut self, fields: &'a DeviceFields) -> Option<View>
        ensures view { result ≡ view_if_seen (lookup_of self.old.records) self.old.image.css
            self.old.image.name (device_of fields.now) }
        ensures same { self.new ≡ self.old }
    {
        self.sight.view_of(fields)
    }
}

/// The images of a configuration that are asked for, in order.
///
/// `AllocError` (M1): memory ran out.
pub fn sights_asked<'a>(
    alloc: Global,
    filters: &Filters,
    config: &'a Config,
) -> Result<Vec<NamedSight<'a>>, AllocError>
    ensures { IfOk result (λ sights. sights.items
        ≡ meaning.sights_in filters.entry.now config.entry.now.records (records_of config.entry.now.records)) }
{
    let mut sights = Vec::new(alloc);
    for (_, entry) in config.walk() {
        put_sight(&mut sights, filters, config, entry)?;
    }
    Ok(sights)
}

/// Puts the image of a record behind others, if it is that of one that is asked for.
fn put_sight<'a>(
    sights: &mut Vec<NamedSight<'a>>,
    filters: &Filters,
    config: &'a Config,
    entry: &Record,
) -> Result<(), AllocError>
    ensures { OnOk result (sights.new.items ≡ sights.old.items ++ meaning.sights_in filters.entry.now
        config.entry.now.records (entry.entry.now ∷ [])) }
{
    let RecordBody::Image(css, mif, name) = entry.body() else {
        return Ok(());
    };
    let (css, mif) = (*css, *mif);
    if wants_image(filters, Image { css, mif }, *name) {
        sights.push(NamedSight::new(config, Image { css, mif }, *name))?;
    }
    Ok(())
}

/// What images see of a device, of those that see it with as few paths online as is asked for.
///
/// `AllocError` (M1): memory ran out.
pub fn images_by<'a>(
    alloc: Global,
    filters: &Filters,
    sights: &mut [NamedSight<'a>],
    device: &'a DeviceFields,
) -> Result<Vec<SeenBy>, AllocError>
    ensures seen { IfOk result (λ seen. seen.items
        ≡ filter_map (meaning.seen_from filters.entry.now (device_of device.entry.now)) sights.old) }
    ensures same { sights.new ≡ sights.old }
{
    let mut seen = Vec::new(alloc);
    for place in 0..sights.len() {
        if let Some(by) = seen_from(filters, &mut sights[place], device) {
            seen.push(by)?;
        }
    }
    Ok(seen)
}

/// What an image sees of a device, if it sees it with as few paths online as is asked for.
fn seen_from<'a>(
    filters: &Filters,
    sight: &mut NamedSight<'a>,
    device: &'a DeviceFields,
) -> Option<SeenBy>
    ensures seen { result ≡ meaning.seen_from filters.entry.now (device_of device.entry.now) sight.old }
    ensures same { sight.new ≡ sight.old }
{
    let view = sight.view_of(device)?;
    if !filters.wants_online(&view) {
        return None;
    }
    Some(SeenBy {
        image: sight.image(),
        name: sight.name(),
        installed: view.pim.bits().count_ones(),
        online: view.pam.bits().count_ones(),
    })
}
