ghost use Rattle.std.specs.Prelude.{◌≡◌, ◌++◌, OnOk};
ghost use Rattle.std.specs.Option.{option_copied};
ghost use Rattle.iocm_affected.specs.Listing as listing;

use crate::users::users_of_name;
use iocm_index::Index;
use iocm_lookup::subsystems;
use iocm_record::{Record, RecordBody};
use iocm_types::{Css, Key, Name, Named, Place};
use std::alloc::{AllocError, Allocator};

/// Puts the places to which a key leads, whose record was one and becomes another, behind those
/// that are listed. The time is in proportion to the number of places that are found, a device once
/// for each unit of it that leads there.
///
/// `AllocError` (M1): memory ran out.
pub(crate) fn list_led<A: Allocator, B: Allocator, C: Allocator + Clone>(
    alloc: C,
    listed: &mut Vec<Place, C>,
    index: &Index<B>,
    key: &Key,
    before: Option<&Record<A>>,
    after: Option<&Record<A>>,
) -> Result<(), AllocError>
    ensures { OnOk result (listing.AreSamePlaces listed.new.items (listed.old.items
        ++ listing.led_places index.now key.now (option_copied before.entry) (option_copied after.entry))) }
{
    let all = subsystems();
    match key {
        Key::Device(_, _) => list_places(listed, all.as_slice(), key),
        Key::Unit(_) => list_on_unit(listed, index, all.as_slice(), key),
        Key::Path(css, _) => list_of_path(listed, index, *css, key),
        Key::Online(css, path, _) => list_of_path(listed, index, *css, &Key::Path(*css, *path)),
        Key::Image(css, _) => {
            list_of_image(alloc.clone()?, listed, index, *css, before)?;
            list_of_image(alloc, listed, index, *css, after)
        }
        Key::Id | Key::Resource | Key::Limit(_, _) => Ok(()),
    }
}

/// Those to which the name of an image record leads. What is no image has none.
fn list_of_image<A: Allocator, B: Allocator, C: Allocator>(
    alloc: C,
    listed: &mut Vec<Place, C>,
    index: &Index<B>,
    css: Css,
    entry: Option<&Record<A>>,
) -> Result<(), AllocError>
    ensures { OnOk result (listing.AreSamePlaces listed.new.items
        (listed.old.items ++ listing.places_of_image index.now css (option_copied entry.entry))) }
{
    let Some(entry) = entry else {
        return Ok(());
    };
    match entry.body() {
        RecordBody::Image(_, _, name) => list_of_name(alloc, listed, index, css, *name),
        _ => Ok(()),
    }
}

/// Those of the devices on the units on the paths of a channel subsystem that name an image. Each
/// unit is looked at once.
fn list_of_name<B: Allocator, C: Allocator>(
    alloc: C,
    listed: &mut Vec<Place, C>,
    index: &Index<B>,
    css: Css,
    name: Name,
) -> Result<(), AllocError>
    ensures { OnOk result (listing.AreSamePlaces listed.new.items
        (listed.old.items ++ listing.places_of_name index.now css name)) }
{
    let users = users_of_name(alloc, index, css, name)?;
    list_on_units(listed, index, css, users.as_slice())
}

/// Those of the devices on some units, in one channel subsystem.
fn list_on_units<B: Allocator, C: Allocator>(
    listed: &mut Vec<Place, C>,
    index: &Index<B>,
    css: Css,
    units: &[Key],
) -> Result<(), AllocError>
    ensures { OnOk result (listed.new.items ≡ listed.old.items ++ listing.places_on_units index.now css units.now) }
{
    let within = [css];
    for unit in units {
        list_on_unit(listed, index, within.as_slice(), unit)?;
    }
    Ok(())
}

/// Those of the devices on the units that name a path.
fn list_of_path<B: Allocator, C: Allocator>(
    listed: &mut Vec<Place, C>,
    index: &Index<B>,
    css: Css,
    path: &Key,
) -> Result<(), AllocError>
    ensures { OnOk result (listed.new.items ≡ listed.old.items ++ listing.places_of_path index.now css path.now) }
{
    let within = [css];
    for user in index.users_of(Named::Record(*path)) {
        list_on_unit(listed, index, within.as_slice(), &user)?;
    }
    Ok(())
}

/// Those of the devices on a unit, in some channel subsystems. What is no unit has none.
fn list_on_unit<B: Allocator, C: Allocator>(
    listed: &mut Vec<Place, C>,
    index: &Index<B>,
    within: &[Css],
    unit: &Key,
) -> Result<(), AllocError>
    ensures { OnOk result
        (listed.new.items ≡ listed.old.items ++ listing.places_on_unit index.now within.now unit.now) }
{
    match unit {
        Key::Unit(_) => list_of_unit(listed, index, within, unit),
        _ => Ok(()),
    }
}

/// Those of the devices that name a unit, in some channel subsystems.
fn list_of_unit<B: Allocator, C: Allocator>(
    listed: &mut Vec<Place, C>,
    index: &Index<B>,
    within: &[Css],
    unit: &Key,
) -> Result<(), AllocError>
    ensures { OnOk result
        (listed.new.items ≡ listed.old.items ++ listing.places_of_unit index.now within.now unit.now) }
{
    for user in index.users_of(Named::Record(*unit)) {
        list_places(listed, within, &user)?;
    }
    Ok(())
}

/// Those of a device in some channel subsystems. What is no device has none.
fn list_places<C: Allocator>(
    listed: &mut Vec<Place, C>,
    within: &[Css],
    user: &Key,
) -> Result<(), AllocError>
    ensures { OnOk result (listed.new.items ≡ listed.old.items ++ listing.places_of within.now user.now) }
{
    let Key::Device(set, device) = user else {
        return Ok(());
    };
    for css in within {
        listed.push(Place {
            css: *css,
            set: *set,
            device: *device,
        })?;
    }
    Ok(())
}
