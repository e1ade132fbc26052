ghost use Rattle.std.specs.Prelude.{◌≡◌, ◌≤◌, ◌++◌, [], ◌∷◌, length, take};
ghost use Rattle.std.specs.Option.{option_copied, option_map};
ghost use Rattle.iocm_model.specs.Machine.Configuration.{lookup_of};
ghost use Rattle.iocm_model.specs.Machine.PathList.{paths_in, unit_paths, view_paths};
ghost use Rattle.iocm_record.specs.Meaning.{device_of};
ghost use Rattle.iocm_derive.specs.Derived.{paths_at, paths_of};

use crate::lookup::{find_device, find_paths, paths_in};
use iocm_config::{Config, RecordWalk};
use iocm_record::DeviceFields;
use iocm_types::{Css, CssPath, DevNo, Key, Paths, SetNo, UnitNo};
use std::alloc::Allocator;

/// The first eight paths by which a channel subsystem reaches a device: the paths of its control
/// units there, joined in the order of CUNUMBR, each unit's in the order of PATH. Empty where there
/// is no such device.
pub fn path_list<A: Allocator>(config: &Config<A>, css: Css, set: SetNo, device: DevNo) -> Paths
    ensures { result ≡ paths_at (lookup_of config.now.records) css set device }
{
    paths_of_device(config, css, find_device(config, set, device))
}

/// The first eight paths of a device, where it is known; none where it isn't there.
pub fn paths_of_device<A: Allocator>(
    config: &Config<A>,
    css: Css,
    device: Option<&DeviceFields<A>>,
) -> Paths
    ensures { result ≡ paths_of (lookup_of config.now.records) css (option_map device_of (option_copied device.entry)) }
{
    match device {
        Some(fields) => paths_of_units(config, css, fields.lists.units()),
        None => Paths::new(),
    }
}

/// The first eight paths of these units in a channel subsystem.
pub fn paths_of_units<A: Allocator>(config: &Config<A>, css: Css, units: &[UnitNo]) -> Paths
    ensures { result ≡ view_paths (lookup_of config.now.records) css units.now }
{
    let mut paths = Paths::new();
    for unit in units {
        add_paths(&mut paths, css, find_paths(config, *unit));
    }
    paths
}

/// The same, where the units are mostly found one after the other.
pub fn next_paths_of_units<A: Allocator>(
    records: &mut RecordWalk<'_, A>,
    css: Css,
    units: &[UnitNo],
) -> Paths
    ensures paths { result ≡ view_paths (lookup_of records.old) css units.now }
    ensures same { records.new ≡ records.old }
{
    let mut paths = Paths::new();
    for unit in units {
        add_paths(&mut paths, css, paths_in(records.find(&Key::Unit(*unit))));
    }
    paths
}

/// Puts the paths of a channel subsystem at the end, up to eight in all.
fn add_paths(paths: &mut Paths, css: Css, more: &[CssPath])
    requires { length paths.old ≤ 8 }
    ensures paths { paths.new ≡ take 8 (paths.old ++ paths_in css more.now) }
    ensures short { length paths.new ≤ 8 }
{
    for path in more {
        add_path(paths, css, *path);
    }
}

/// Puts a path at the end if it is of the channel subsystem and there are less than eight.
fn add_path(paths: &mut Paths, css: Css, path: CssPath)
    requires { length paths.old ≤ 8 }
    ensures paths { paths.new ≡ take 8 (paths.old ++ paths_in css (path ∷ [])) }
    ensures short { length paths.new ≤ 8 }
{
    if path.css != css {
        return;
    }
    if paths.is_full() {
        return;
    }
    paths.push(path.path);
}
