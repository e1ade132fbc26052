ghost use Rattle.std.specs.Prelude.{◌≡◌, IfOk};
ghost use Rattle.std.specs.Option.{option_and_then, option_copied};
ghost use Rattle.iocm_difference.specs.Met.{pair_met};
ghost use Rattle.iocm_impact.specs.Impact as meaning;

use iocm_config::Config;
use iocm_difference::{Merge, Met};
use iocm_record::{Record, RecordBody};
use iocm_types::{Image, Name};
use std::alloc::{AllocError, Global};

/// An image with its name.
#[derive(Clone, Copy)]
pub struct NamedImage {
    /// The image.
    pub image: Image,
    /// Its name after a change, or before if it is deleted.
    pub name: Name,
}

impl NamedImage {
    /// The same image with its name.
    pub fn copied(&self) -> NamedImage
        ensures { result ≡ self.now }
    {
        let (css, mif, name) = (self.image.css, self.image.mif, self.name);
        NamedImage {
            image: Image { css, mif },
            name,
        }
    }
}

/// Every image of one of two configurations, or of both, in the order of keys. The time is that of one walk over both.
///
/// `AllocError` (M1): memory ran out.
pub fn named_images(
    alloc: Global,
    old: &Config,
    new: &Config,
) -> Result<Vec<NamedImage>, AllocError>
    ensures { IfOk result (λ images. images.items ≡ meaning.named_images old.now.records new.now.records) }
{
    let mut images = Vec::new(alloc);
    let mut merge = Merge::new(old, new);
    while let Some(met) = merge.step() {
        if let Some(image) = image_met(&met) {
            images.push(image)?;
        }
    }
    Ok(images)
}

/// The image at a key, by its name after, or before if it is deleted.
fn image_met(met: &Met<'_, Global, Global>) -> Option<NamedImage>
    ensures { result ≡ meaning.named_image (pair_met met.now) }
{
    match image_in(met.new) {
        Some(image) => Some(image),
        None => image_in(met.old),
    }
}

/// The image of a record, if it is there and is that of one.
fn image_in(entry: Option<&Record>) -> Option<NamedImage>
    ensures { result ≡ option_and_then meaning.image_of (option_copied entry.entry) }
{
    match entry {
        Some(entry) => image_of(entry),
        None => None,
    }
}

/// The image of a record, if it is that of one.
fn image_of(entry: &Record) -> Option<NamedImage>
    ensures { result ≡ meaning.image_of entry.now }
{
    match entry.body() {
        RecordBody::Image(css, mif, name) => {
            let (css, mif, name) = (*css, *mif, *name);
            Some(NamedImage {
                image: Image { css, mif },
                name,
            })
        }
        _ => None,
    }
}
