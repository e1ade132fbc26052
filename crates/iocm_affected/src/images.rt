ghost use Rattle.std.specs.Prelude.{◌≡◌, ◌++◌, ◌∷◌, [], nat_lt, IfOk, OnOk};
ghost use Rattle.std.specs.List.Sorted.{IsStrictlySortedBy};
ghost use Rattle.std.specs.Option.{option_copied};
ghost use Rattle.iocm_types.specs.SubId.{image_cmp};
ghost use Rattle.iocm_lookup.specs.Kinds.{kind_of};
ghost use Rattle.iocm_affected.specs.Listing as listing;

use crate::choice::{AllImages, Choice, ImageNamed, ListedOtherwise};
use iocm_config::Config;
use iocm_record::{Record, RecordBody};
use iocm_types::{Image, Key};
use std::alloc::{AllocError, Allocator};

/// The most images that a configuration has: 15 in each of six channel subsystems.
const MOST_IMAGES: usize = 90;

/// The images that look at the record of a key, which was one and becomes another, in order. An
/// image looks at its own record; at a path of its channel subsystem, where that lists its name
/// before or afterwards, but not both; at what is said to be online to its name there; and at all
/// units and devices. The time is that of one search, and of a walk over the images, 90 at the most.
///
/// `AllocError` (M1): memory ran out.
pub(crate) fn led_images<A: Allocator, B: Allocator>(
    alloc: B,
    config: &Config<A>,
    key: &Key,
    before: Option<&Record<A>>,
    after: Option<&Record<A>>,
) -> Result<Vec<Image, B>, AllocError>
    ensures images { IfOk result (λ images. images.items
        ≡ listing.led_images config.now.records key.now (option_copied before.entry) (option_copied after.entry)) }
    ensures rise { IfOk result (λ images. IsStrictlySortedBy image_cmp images.items) }
{
    config.has_own_keys();
    match key {
        Key::Image(css, mif) => one_image(
            alloc,
            Image {
                css: *css,
                mif: *mif,
            },
        ),
        Key::Path(css, _) => {
            let listed = ListedOtherwise {
                css: *css,
                before,
                after,
            };
            images_in(alloc, config, &listed)
        }
        Key::Online(css, _, name) => {
            let named = ImageNamed {
                css: *css,
                name: *name,
            };
            images_in(alloc, config, &named)
        }
        Key::Unit(_) | Key::Device(_, _) => images_in(alloc, config, &AllImages),
        Key::Id | Key::Resource | Key::Limit(_, _) => Ok(Vec::new(alloc)),
    }
}

/// This image alone.
fn one_image<B: Allocator>(alloc: B, image: Image) -> Result<Vec<Image, B>, AllocError>
    ensures images { IfOk result (λ images. images.items ≡ image ∷ []) }
    ensures rise { IfOk result (λ images. IsStrictlySortedBy image_cmp images.items) }
{
    let mut images = Vec::new(alloc);
    images.push(image)?;
    Ok(images)
}

/// The images of a choice, in order. Each image of the configuration is asked whether it is chosen,
/// and the walk ends where the images do.
fn images_in<A: Allocator, B: Allocator, C: Choice>(
    alloc: B,
    config: &Config<A>,
    choice: &C,
) -> Result<Vec<Image, B>, AllocError>
    ensures images { IfOk result (λ images. images.items
        ≡ listing.images_in (C.chosen choice.now) config.now.records) }
    ensures rise { IfOk result (λ images. IsStrictlySortedBy image_cmp images.items) }
{
    config.has_own_keys();
    let mut images = Vec::with_capacity(alloc, MOST_IMAGES)?;
    for (key, entry) in config.walk_from(&Key::Resource) {
        if is_past_images(key) {
            return Ok(images);
        }
        list_if_chosen(&mut images, choice, entry)?;
    }
    Ok(images)
}

/// Whether a key stands behind all images.
fn is_past_images(key: &Key) -> bool
    ensures { result ≡ nat_lt 2 (kind_of key.now) }
{
    !matches!(key, Key::Id | Key::Resource | Key::Image(_, _))
}

/// Puts the image of a record behind those that are listed, if it is that of one of a choice.
fn list_if_chosen<A: Allocator, B: Allocator, C: Choice>(
    images: &mut Vec<Image, B>,
    choice: &C,
    entry: &Record<A>,
) -> Result<(), AllocError>
    ensures { OnOk result
        (images.new.items ≡ images.old.items ++ listing.images_at (C.chosen choice.now) entry.now) }
{
    let RecordBody::Image(css, mif, name) = entry.body() else {
        return Ok(());
    };
    if !choice.has(*css, *name) {
        return Ok(());
    }
    images.reserve(1)?;
    images.push_reserved(Image {
        css: *css,
        mif: *mif,
    });
    Ok(())
}
