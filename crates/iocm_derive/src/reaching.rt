ghost use Rattle.std.specs.Prelude.{◌≡◌};
ghost use Rattle.std.specs.List.{list_any};
ghost use Rattle.iocm_model.specs.Machine.Configuration.{lookup_of};
ghost use Rattle.iocm_model.specs.Machine.Mask.{installed};
ghost use Rattle.iocm_model.specs.Machine.PathList.{path_list, view_paths};
ghost use Rattle.iocm_model.specs.Machine.Sight as sight;

use crate::reach::Reach;
use crate::sight::reaches_units;
use iocm_types::{Mask, Paths, UnitNo};
use std::alloc::Allocator;

/// Whether an image reaches one of the paths of these units, by its path-installed mask over the
/// first eight. Only where it reaches none of eight the units are asked for further ones.
pub fn is_reached<A: Allocator, R: Reach<A>>(
    reach: &R,
    units: &[UnitNo],
    paths: &Paths,
    pim: Mask,
) -> bool
    requires paths { paths.now ≡ view_paths (lookup_of (R.records reach.now)) (R.subsystem reach.now) units.now }
    requires pim { pim
        ≡ installed (lookup_of (R.records reach.now)) (R.subsystem reach.now) (R.called reach.now) paths.now }
    ensures { result ≡ list_any
        (sight.reaches (lookup_of (R.records reach.now)) (R.subsystem reach.now) (R.called reach.now))
        (path_list (lookup_of (R.records reach.now)) (R.subsystem reach.now) units.now) }
{
    if pim.bits() != 0 {
        return true;
    }
    if !paths.is_full() {
        return false;
    }
    reaches_units(reach, units)
}
