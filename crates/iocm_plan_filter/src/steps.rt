ghost use Rattle.std.specs.Prelude.{◌≡◌, nat_eq};
ghost use Rattle.std.specs.List.{list_any};
ghost use Rattle.std.specs.Option.{option_copied, option_map};
ghost use Rattle.iocm_model.specs.Machine.Configuration.{lookup_of};
ghost use Rattle.iocm_model.specs.Machine.Sight as model;
ghost use Rattle.iocm_model.specs.Machine.View.{device_record};
ghost use Rattle.iocm_record.specs.Meaning.{device_of};
ghost use Rattle.iocm_plan_filter.specs.Connected as meaning;

use iocm_config::Config;
use iocm_derive::{DeviceWalk, lists_image};
use iocm_record::{DeviceFields, RecordBody};
use iocm_types::{Chpid, Css, CssPath, DevNo, Key, Name, SetNo, UnitNo};

/// The paths of a control unit in all channel subsystems; one that isn't there has none.
pub(crate) fn paths_of(config: &Config, unit: UnitNo) -> &[CssPath]
    ensures { result.now ≡ meaning.paths_of (lookup_of config.entry.now.records) unit }
{
    let Some(entry) = config.get(&Key::Unit(unit)) else {
        return &[];
    };
    match entry.body() {
        RecordBody::Unit(fields) => fields.paths.as_slice(),
        _ => &[],
    }
}

/// Whether a path is among others.
pub(crate) fn has_path(paths: &[CssPath], css: Css, path: Chpid) -> bool
    ensures { result ≡ meaning.has_path css path paths.now }
{
    paths.iter().any(|own| own.css == css && own.path == path)
}

/// Whether the image of a name reaches a path of its channel subsystem.
pub(crate) fn reaches(config: &Config, css: Css, name: Name, path: Chpid) -> bool
    ensures { result ≡ model.reaches (lookup_of config.now.records) css name path }
{
    match config.get(&Key::Path(css, path)) {
        Some(entry) => lists_image(entry, name),
        None => false,
    }
}

/// Whether it reaches one of these paths.
pub(crate) fn reaches_any(config: &Config, css: Css, name: Name, paths: &[CssPath]) -> bool
    ensures { result ≡ meaning.reaches_any (lookup_of config.now.records) css name paths.now }
{
    paths.iter().any(|path| path.css == css && reaches(config, css, name, path.path))
}

/// Whether a control unit is among others.
pub(crate) fn has_unit(units: &[UnitNo], unit: UnitNo) -> bool
    ensures { result ≡ list_any (nat_eq unit) units.now }
{
    units.iter().any(|own| unit == *own)
}

/// The device of a number in a set, if it is there.
pub(crate) fn device_at(config: &Config, set: SetNo, number: DevNo) -> Option<&DeviceFields>
    ensures { option_map device_of (option_copied result)
        ≡ device_record (lookup_of config.entry.now.records) set number }
{
    DeviceWalk::new(config).find(set, number)
}
