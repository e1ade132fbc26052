ghost use Rattle.std.specs.Prelude.{◌≡◌, nat_eq};
ghost use Rattle.std.specs.List.{list_any};
ghost use Rattle.iocm_model.specs.Machine.Configuration.{lookup_of};
ghost use Rattle.iocm_plan_filter.specs.Connected as meaning;

use crate::steps::{device_at, has_path, has_unit, paths_of, reaches_any};
use iocm_config::Config;
use iocm_derive::name_of_image;
use iocm_filter::Filters;
use iocm_types::{Css, DevNo, Image, Key, Mif, SetNo, UnitNo};

/// Whether an object is connected with one of the control units that are asked for.
pub(crate) fn is_of_units(filters: &Filters, config: &Config, key: &Key) -> bool
    ensures { result ≡ meaning.is_of_units filters.now config.now.records key.now }
{
    is_of_any(config, filters.units(), key)
}

/// Whether it is with one of these.
fn is_of_any(config: &Config, units: &[UnitNo], key: &Key) -> bool
    ensures { result ≡ list_any (meaning.is_of_unit (lookup_of config.now.records) key.now) units.now }
{
    units.iter().any(|unit| is_of_unit(config, key, *unit))
}

/// Whether it is with this one.
fn is_of_unit(config: &Config, key: &Key, unit: UnitNo) -> bool
    ensures { result ≡ meaning.is_of_unit (lookup_of config.now.records) key.now unit }
{
    match key {
        Key::Image(css, mif) => reaches_unit(config, *css, *mif, unit),
        Key::Path(css, path) => has_path(paths_of(config, unit), *css, *path),
        Key::Unit(own) => *own == unit,
        Key::Device(set, number) => names_unit(config, *set, *number, unit),
        _ => false,
    }
}

/// Whether an image that is there reaches a path of a control unit.
fn reaches_unit(config: &Config, css: Css, mif: Mif, unit: UnitNo) -> bool
    ensures { result ≡ meaning.of_name_at (lookup_of config.now.records) css mif (λ name.
        meaning.reaches_any (lookup_of config.now.records) css name
        (meaning.paths_of (lookup_of config.now.records) unit)) }
{
    match name_of_image(config, Image { css, mif }) {
        Some(name) => reaches_any(config, css, name, paths_of(config, unit)),
        None => false,
    }
}

/// Whether a device that is there names a control unit.
fn names_unit(config: &Config, set: SetNo, number: DevNo, unit: UnitNo) -> bool
    ensures { result ≡ meaning.of_device_at (lookup_of config.now.records) set number
        (λ d. list_any (nat_eq unit) d.units) }
{
    match device_at(config, set, number) {
        Some(device) => has_unit(device.lists.units(), unit),
        None => false,
    }
}
