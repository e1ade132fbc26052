ghost use Rattle.std.specs.Prelude.{◌≡◌};
ghost use Rattle.std.specs.List.{list_any};
ghost use Rattle.iocm_types.specs.declared.key.Key.TheVariants as key;
ghost use Rattle.iocm_model.specs.Machine.Configuration.{lookup_of};
ghost use Rattle.iocm_model.specs.Machine.Mask.{installed};
ghost use Rattle.iocm_model.specs.Machine.PathList.{path_list, paths_in, view_paths};
ghost use Rattle.iocm_model.specs.Machine.Sight.{reaches};
ghost use Rattle.iocm_derive.specs.Derived.{all_paths};

use crate::ReachedImage;
use iocm_config::Config;
use iocm_record::RecordBody;
use iocm_types::{CssPath, Key, Mask, Paths, UnitNo};
use std::alloc::Allocator;

/// Whether an image reaches one of the paths of these units, by its path-installed mask over the
/// first eight. Only where it reaches none of eight the units are asked for further ones.
pub fn is_reached<A: Allocator, B: Allocator>(
    image: &ReachedImage<'_, A, B>,
    units: &[UnitNo],
    paths: &Paths,
    pim: Mask,
) -> bool
    requires paths { paths.now ≡ view_paths (lookup_of image.now.records) image.now.image.css units.now }
    requires pim { pim
        ≡ installed (lookup_of image.now.records) image.now.image.css image.now.image.name paths.now }
    ensures { result ≡ list_any (reaches (lookup_of image.now.records) image.now.image.css image.now.image.name)
        (path_list (lookup_of image.now.records) image.now.image.css units.now) }
{
    if pim.bits() != 0 {
        return true;
    }
    if !paths.is_full() {
        return false;
    }
    reaches_units(image, units)
}

/// Whether an image reaches one of the paths of these units.
fn reaches_units<A: Allocator, B: Allocator>(
    image: &ReachedImage<'_, A, B>,
    units: &[UnitNo],
) -> bool
    ensures { result ≡ list_any (reaches (lookup_of image.now.records) image.now.image.css image.now.image.name)
        (path_list (lookup_of image.now.records) image.now.image.css units.now) }
{
    for unit in units {
        if reaches_any(image, find_paths(image.config(), *unit)) {
            return true;
        }
    }
    false
}

/// Whether an image reaches one of these paths that are in its channel subsystem.
fn reaches_any<A: Allocator, B: Allocator>(
    image: &ReachedImage<'_, A, B>,
    paths: &[CssPath],
) -> bool
    ensures { result ≡ list_any (reaches (lookup_of image.now.records) image.now.image.css image.now.image.name)
        (paths_in image.now.image.css paths.now) }
{
    let css = image.image().css;
    for path in paths {
        if path.css == css && image.path(path.path).reached {
            return true;
        }
    }
    false
}

/// The paths of a control unit in all channel subsystems; a unit that isn't there has none.
fn find_paths<A: Allocator>(config: &Config<A>, unit: UnitNo) -> &[CssPath]
    ensures { result.now ≡ all_paths (lookup_of config.now.records (key.Unit unit)) }
{
    let Some(entry) = config.get(&Key::Unit(unit)) else {
        return &[];
    };
    match entry.body() {
        RecordBody::Unit(fields) => fields.paths.as_slice(),
        _ => &[],
    }
}
