ghost use Rattle.std.specs.Prelude.{◌≡◌};
ghost use Rattle.std.specs.List.{list_any};
ghost use Rattle.std.specs.Option.{option_copied};
ghost use Rattle.iocm_model.specs.Machine.Configuration.{lookup_of};
ghost use Rattle.iocm_model.specs.Machine.PathList.{path_list, unit_paths, paths_in};
ghost use Rattle.iocm_model.specs.Machine.Sight as model;
ghost use Rattle.iocm_record.specs.Meaning.{device_of};
ghost use Rattle.iocm_derive.specs.Derived.{sees};

use crate::lookup::{find_device, find_image, find_paths};
use crate::reach::{ImageRecords, Reach};
use iocm_config::Config;
use iocm_record::DeviceFields;
use iocm_types::{CssPath, DevNo, Image, List, Name, SetNo, UnitNo};
use std::alloc::Allocator;

/// Whether an image sees a device of a set: the device lists no candidates or the image among them,
/// and the image reaches one of the paths to it. False where the image or the device isn't there.
pub fn sees<A: Allocator>(config: &Config<A>, image: Image, set: SetNo, device: DevNo) -> bool
    ensures { result ≡ sees (lookup_of config.now.records) image set device }
{
    let Some((css, name)) = find_image(config, image) else {
        return false;
    };
    match find_device(config, set, device) {
        Some(fields) => sees_device(&ImageRecords::new(config, css, name), fields),
        None => false,
    }
}

/// Whether an image sees a device that is there.
fn sees_device<A: Allocator, R: Reach<A>>(reach: &R, device: &DeviceFields<A>) -> bool
    ensures { result ≡ model.sees (lookup_of (R.records reach.now)) (R.subsystem reach.now) (R.called reach.now)
        (device_of device.now) }
{
    is_candidate(device.lists.candidates(), reach.name())
        && reaches_units(reach, device.lists.units())
}

/// Whether no candidates are listed, or the name is among them.
pub fn is_candidate<A: Allocator>(candidates: Option<&List<Name, A>>, name: Name) -> bool
    ensures { result ≡ model.is_candidate name (option_copied candidates.entry) }
{
    match candidates {
        Some(names) => has_name(names.as_slice(), name),
        None => true,
    }
}

/// Whether a list has a name.
pub fn has_name(names: &[Name], name: Name) -> bool
    ensures { result ≡ model.has_name name names.now }
{
    names.iter().any(|other| name == *other)
}

/// Whether an image reaches one of the paths of these units.
pub fn reaches_units<A: Allocator, R: Reach<A>>(reach: &R, units: &[UnitNo]) -> bool
    ensures { result ≡ list_any
        (model.reaches (lookup_of (R.records reach.now)) (R.subsystem reach.now) (R.called reach.now))
        (path_list (lookup_of (R.records reach.now)) (R.subsystem reach.now) units.now) }
{
    for unit in units {
        if reaches_any(reach, find_paths(reach.config(), *unit)) {
            return true;
        }
    }
    false
}

/// Whether an image reaches one of these paths that are in its channel subsystem.
fn reaches_any<A: Allocator, R: Reach<A>>(reach: &R, paths: &[CssPath]) -> bool
    ensures { result ≡ list_any
        (model.reaches (lookup_of (R.records reach.now)) (R.subsystem reach.now) (R.called reach.now))
        (paths_in (R.subsystem reach.now) paths.now) }
{
    let css = reach.css();
    for path in paths {
        if path.css == css && reach.reaches(path.path) {
            return true;
        }
    }
    false
}
