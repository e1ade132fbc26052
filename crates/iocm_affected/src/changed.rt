ghost use Rattle.std.specs.Prelude.{◌≡◌, IfOk};
ghost use Rattle.std.specs.List.Sorted.{IsStrictlySortedBy};
ghost use Rattle.std.specs.Option.{option_copied, ForSome};
ghost use Rattle.iocm_types.specs.Place.{place_cmp};
ghost use Rattle.iocm_types.specs.SubId.{image_cmp};
ghost use Rattle.iocm_model.specs.Change.Maps.{with_value};
ghost use Rattle.iocm_model.specs.Machine.Record.{key_of};
ghost use Rattle.iocm_lookup.specs.Indexed.{IsIndexOf};
ghost use Rattle.iocm_affected.specs.Affected.{AreAllAffected};

use crate::alike::are_seen_alike;
use crate::images::led_images;
use crate::places::list_led;
use iocm_config::Config;
use iocm_index::Index;
use iocm_record::Record;
use iocm_types::{Image, Key, Place, sorted_once};
use std::alloc::{AllocError, Allocator, Global};

/// The places and the images that a change may affect: at other places, and to other images,
/// everything is as before.
#[derive(Drop)]
pub struct Affected<A: Allocator = Global> {
    /// The places at which a device may come in, leave or be seen differently, rising.
    pub places: Vec<Place, A>,
    /// The images that may see a device differently, rising.
    pub images: Vec<Image, A>,
}

/// What may be affected where the record of a key becomes another, or none, or where it comes in.
/// The index is that of the configuration before the change. The time is that of sorting the places
/// that lead to the key, and of a walk over the images; a device of which several paths lead there
/// counts as often. A device that keeps its control units and its candidates affects nothing.
///
/// `AllocError` (M1): memory ran out.
pub fn affected_by<A: Allocator, B: Allocator, C: Allocator + Clone>(
    alloc: C,
    config: &Config<A>,
    index: &Index<B>,
    key: &Key,
    after: Option<&Record<A>>,
) -> Result<Affected<C>, AllocError>
    requires index { IsIndexOf config.now.records index.now }
    requires key { ForSome after (λ entry. key_of entry.now ≡ key.now) }
    ensures all { IfOk result (λ a. AreAllAffected config.now.records
        (with_value config.now.records key.now (option_copied after.entry)) a.places.items a.images.items) }
    ensures places_rise { IfOk result (λ a. IsStrictlySortedBy place_cmp a.places.items) }
    ensures images_rise { IfOk result (λ a. IsStrictlySortedBy image_cmp a.images.items) }
{
    config.has_own_keys();
    let before = config.get(key);
    if are_seen_alike(before, after) {
        return Ok(Affected {
            places: Vec::new(alloc.clone()?),
            images: Vec::new(alloc),
        });
    }
    let mut listed = Vec::new(alloc.clone()?);
    list_led(alloc.clone()?, &mut listed, index, key, before, after)?;
    let images = led_images(alloc, config, key, before, after)?;
    // A device may be met on two of its units.
    let places = sorted_once(listed)?;
    Ok(Affected { places, images })
}
