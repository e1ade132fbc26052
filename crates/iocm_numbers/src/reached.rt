ghost use Rattle.std.specs.Prelude.{◌≡◌, not};
ghost use Rattle.iocm_model.specs.Machine.Configuration.{lookup_of};
ghost use Rattle.iocm_model.specs.Machine.Numbering.{is_empty, is_reached_at};
ghost use Rattle.iocm_model.specs.Machine.PathList.{paths_in, unit_record_paths, path_list};
ghost use Rattle.std.specs.Option.{option_copied};

use crate::place_walk::PlaceWalk;
use iocm_config::Config;
use iocm_record::{Record, RecordBody};
use iocm_types::{Css, CssPath, Key, Place, UnitNo};
use std::alloc::Allocator;

/// Whether a channel subsystem reaches devices on these units: one of them has a path there. One
/// search for each unit, until one has a path.
pub fn is_reached<A: Allocator>(config: &Config<A>, css: Css, units: &[UnitNo]) -> bool
    ensures { result ≡ not (is_empty (path_list (lookup_of config.now.records) css units.now)) }
{
    for unit in units {
        if has_path(config.get(&Key::Unit(*unit)), css) {
            return true;
        }
    }
    false
}

/// Whether a place is that of a device that is there and reached. One search for the device, and
/// one for each of its units until one has a path.
pub(crate) fn is_place_reached<A: Allocator>(config: &Config<A>, place: Place) -> bool
    ensures { result ≡ is_reached_at config.now.records place }
{
    PlaceWalk::new(config).is_reached(&place)
}

/// Whether a record, if there is one, is that of a unit that has a path in a channel subsystem.
pub(crate) fn has_path<A: Allocator>(entry: Option<&Record<A>>, css: Css) -> bool
    ensures { result ≡ not (is_empty (unit_record_paths css (option_copied entry.entry))) }
{
    let Some(entry) = entry else {
        return false;
    };
    match entry.body() {
        RecordBody::Unit(fields) => is_one_in(css, fields.paths.as_slice()),
        _ => false,
    }
}

/// Whether one of these paths is in a channel subsystem.
fn is_one_in(css: Css, paths: &[CssPath]) -> bool
    ensures { result ≡ not (is_empty (paths_in css paths.now)) }
{
    for path in paths {
        if path.css == css {
            return true;
        }
    }
    false
}
