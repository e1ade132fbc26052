ghost use Rattle.std.specs.Prelude.{◌≡◌, filter, IfOk};
ghost use Rattle.iocm_plan_filter.specs.Left as meaning;

use crate::asked::{Asked, is_asked};
use crate::lost::{lost_by, was_on_way};
use iocm_config::Config;
use iocm_filter::Filters;
use iocm_objects::Object;
use std::alloc::{AllocError, Global};

/// Which objects of a change filters leave: for each kind of filters of which something is asked, they are connected
/// with one of what is, before or after. With `is_lost`, they also were on the way of a device that is lost, of those
/// that filters ask for. The order stays. The time is that of a look at each object for each word of the filters, of a
/// walk over the devices that are asked for and, with `is_lost`, of a look at each run of devices for each image.
///
/// `AllocError` (M1): memory ran out.
///
/// Promise: filters leave exactly the objects of a plan that are connected with what they ask for.
pub fn objects_left(
    alloc: Global,
    filters: &Filters,
    is_lost: bool,
    old: &Config,
    new: &Config,
    objects: Vec<Object>,
) -> Result<Vec<Object>, AllocError>
    ensures { IfOk result (λ left. left.items
        ≡ meaning.objects_left filters.now is_lost old.now.records new.now.records objects.items) }
{
    let asked = objects_asked(alloc, filters, old, new, objects)?;
    if is_lost {
        objects_lost(alloc, filters, old, new, asked)
    } else {
        Ok(asked)
    }
}

/// Of these objects those that are connected with what filters ask for.
fn objects_asked(
    alloc: Global,
    filters: &Filters,
    old: &Config,
    new: &Config,
    objects: Vec<Object>,
) -> Result<Vec<Object>, AllocError>
    ensures { IfOk result (λ left. left.items
        ≡ meaning.objects_asked filters.now old.now.records new.now.records objects.items) }
{
    let asked = Asked::new(alloc, filters, old, new)?;
    objects_of(alloc, &asked, objects)
}

/// Of these objects those that are connected with what is asked for.
fn objects_of(
    alloc: Global,
    asked: &Asked<'_>,
    objects: Vec<Object>,
) -> Result<Vec<Object>, AllocError>
    ensures { IfOk result (λ left. left.items ≡ meaning.objects_asked asked.now.filters.now asked.now.old.now.records
        asked.now.new.now.records objects.items) }
{
    objects
        .into_iter()
        .filter(|object| is_asked(asked, &object.key))
        .collect(alloc)
}

/// Of these objects those that were on the way of a device that is lost.
fn objects_lost(
    alloc: Global,
    filters: &Filters,
    old: &Config,
    new: &Config,
    objects: Vec<Object>,
) -> Result<Vec<Object>, AllocError>
    ensures { IfOk result (λ left. left.items
        ≡ meaning.objects_lost filters.now old.now.records new.now.records objects.items) }
{
    let lost = lost_by(alloc, filters, old, new)?;
    objects
        .into_iter()
        .filter(|object| was_on_way(&lost, &object.key))
        .collect(alloc)
}
