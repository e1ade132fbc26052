ghost use Rattle.std.specs.Prelude.{◌≡◌, [], ◌∷◌, IfOk, MatchOption};
ghost use Rattle.iocm_model.specs.Machine.Configuration.{records_of};
ghost use Rattle.iocm_seats.specs.Listing.{images_among, sights_of};

use crate::image_keys::is_past_images;
use iocm_config::Config;
use iocm_derive::ImageSight;
use iocm_record::{Record, RecordBody};
use iocm_types::{Css, Image};
use std::alloc::{AllocError, Allocator};

/// The images of a channel subsystem, in order. The walk over the records stops behind the images.
/// The paths that each image reaches are looked up once.
///
/// `AllocError` (M1): memory ran out.
pub(crate) fn subsystem_sights<'a, A: Allocator, B: Allocator>(
    alloc: B,
    config: &'a Config<A>,
    css: Css,
) -> Result<Vec<ImageSight<'a, A>, B>, AllocError>
    ensures { IfOk result (λ sights. sights.items ≡ sights_of config.entry.now.records
        (images_among css (records_of config.entry.now.records))) }
{
    // For the proof alone: each record stands under its own key.
    config.has_own_keys();
    let mut sights = Vec::new(alloc);
    for (key, entry) in config.walk() {
        if is_past_images(key) {
            return Ok(sights);
        }
        if let Some(sight) = sight_in(config, css, entry) {
            sights.push(sight)?;
        }
    }
    Ok(sights)
}

/// The image of a record, if it is that of one of the channel subsystem.
fn sight_in<'a, A: Allocator>(
    config: &'a Config<A>,
    css: Css,
    entry: &Record<A>,
) -> Option<ImageSight<'a, A>>
    ensures { MatchOption result (images_among css (entry.now ∷ []) ≡ [])
        (λ s. sights_of config.entry.now.records (images_among css (entry.now ∷ [])) ≡ s ∷ []) }
{
    let RecordBody::Image(of, mif, name) = entry.body() else {
        return None;
    };
    if *of != css {
        return None;
    }
    let image = Image {
        css: *of,
        mif: *mif,
    };
    Some(ImageSight::new(config, image, *name))
}
