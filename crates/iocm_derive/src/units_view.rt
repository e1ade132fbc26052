ghost use Rattle.std.specs.Prelude.{◌≡◌, ◌↔◌, IsTrue};
ghost use Rattle.iocm_model.specs.Machine.Configuration.{lookup_of};
ghost use Rattle.iocm_model.specs.Machine.PathList.{view_paths};
ghost use Rattle.iocm_model.specs.Machine.View as model;
ghost use Rattle.iocm_record.specs.Meaning.{device_of};
ghost use Rattle.iocm_derive.specs.Sighted.{IsSeenBy};

use crate::masks::{available_paths, installed_paths};
use crate::reach::Reach;
use crate::reaching::is_reached;
use crate::sight::is_candidate;
use iocm_record::DeviceFields;
use iocm_types::{Mask, Paths, UnitNo, View};
use std::alloc::Allocator;

/// What an image sees of each device on these control units: whether it reaches a path to them, the
/// first eight paths, and their masks.
#[derive(Drop)]
pub struct UnitsView<'a> {
    pub units: &'a [UnitNo],
    pub is_reached: bool,
    pub paths: Paths,
    pub pim: Mask,
    pub pam: Mask,
}

/// What an image sees by these units, whose first eight paths in its channel subsystem are these.
pub fn units_view<'a, A: Allocator, R: Reach<A>>(
    reach: &R,
    units: &'a [UnitNo],
    paths: Paths,
) -> UnitsView<'a>
    requires paths { paths ≡ view_paths (lookup_of (R.records reach.now)) (R.subsystem reach.now) units.now }
    ensures units { result.units.now ≡ units.entry.now }
    ensures seen { IsSeenBy (lookup_of (R.records reach.now)) (R.subsystem reach.now) (R.called reach.now) result }
{
    let pim = installed_paths(reach, &paths);
    UnitsView {
        units,
        is_reached: is_reached(reach, units, &paths, pim),
        pim,
        pam: available_paths(reach, &paths),
        paths,
    }
}

/// Whether these are the same units. Most devices are on one.
pub fn are_same(units: &[UnitNo], others: &[UnitNo]) -> bool
    ensures { IsTrue result ↔ (units.now ≡ others.now) }
{
    match (units, others) {
        ([unit], [other]) => unit == other,
        _ => units == others,
    }
}

/// The view of a device by its units, if the image sees it.
pub fn view_by<A: Allocator, R: Reach<A>>(
    reach: &R,
    by: &UnitsView,
    device: &DeviceFields<A>,
) -> Option<View>
    requires units { by.now.units.now ≡ device.now.lists.units }
    requires seen { IsSeenBy (lookup_of (R.records reach.now)) (R.subsystem reach.now) (R.called reach.now) by.now }
    ensures { result ≡ model.view_if_seen (lookup_of (R.records reach.now)) (R.subsystem reach.now)
        (R.called reach.now) (device_of device.now) }
{
    if !is_candidate(device.lists.candidates(), reach.name()) {
        return None;
    }
    if !by.is_reached {
        return None;
    }
    Some(View {
        device: device.number,
        paths: by.paths,
        pim: by.pim,
        pam: by.pam,
    })
}
