ghost use Rattle.std.specs.Prelude.{◌≡◌, ◌∷◌, ◌++◌, [], IfOk, OnOk};
ghost use Rattle.std.specs.List.{list_any};
ghost use Rattle.iocm_sight.specs.Connected as meaning;

use iocm_config::Config;
use iocm_filter::{Filters, ImageWord, is_at, is_named};
use iocm_lookup::{RecordKind, records_of_kind};
use iocm_record::{Record, RecordBody};
use iocm_types::{Css, Image, Name};
use std::alloc::{AllocError, Global};

/// An image that filters ask for, by its channel subsystem and its name.
#[derive(Clone, Copy, PartialEq, Eq)]
pub struct AskedImage {
    /// The channel subsystem.
    pub css: Css,
    /// The name.
    pub name: Name,
}

/// The images of a configuration that filters ask for by their places or their names, in the order of
/// their keys.
///
/// `AllocError` (M1): memory ran out.
pub fn asked_images(
    alloc: Global,
    filters: &Filters,
    config: &Config,
) -> Result<Vec<AskedImage>, AllocError>
    ensures { IfOk result (λ images. images.items ≡ meaning.asked_images filters.now config.now.records) }
{
    let mut images = Vec::new(alloc);
    for entry in records_of_kind(config, RecordKind::Image) {
        put_image(&mut images, filters, entry)?;
    }
    Ok(images)
}

/// Puts the image of a record behind others, if it is one that filters ask for.
fn put_image(
    images: &mut Vec<AskedImage>,
    filters: &Filters,
    entry: &Record,
) -> Result<(), AllocError>
    ensures { OnOk result (images.new.items ≡ images.old.items ++ meaning.asked_among filters.now (entry.now ∷ [])) }
{
    match entry.body() {
        RecordBody::Image(css, mif, name) => {
            let (css, mif, name) = (*css, *mif, *name);
            if is_meant(filters.images(), Image { css, mif }, name) {
                images.push(AskedImage { css, name })?;
            }
            Ok(())
        }
        _ => Ok(()),
    }
}

/// Whether one of these words asks for the image of this name at a place.
pub(crate) fn is_meant(words: &[ImageWord], image: Image, name: Name) -> bool
    ensures { result
        ≡ list_any (meaning.means_image (record { css = image.css; mif = image.mif; name = name })) words.now }
{
    words
        .iter()
        .any(|word| is_at(word, image) || is_named(word, name))
}
