ghost use Rattle.std.specs.Prelude.{◌≡◌, ◌++◌, map, IfOk, OnOk};
ghost use Rattle.iocm_model.specs.Machine.Configuration.{lookup_of};
ghost use Rattle.iocm_model.specs.Machine.PathList.{path_list, paths_in, unit_paths};
ghost use Rattle.iocm_sight.specs.Seen as meaning;

use iocm_config::Config;
use iocm_record::RecordBody;
use iocm_types::{Css, CssPath, Key, UnitNo};
use std::alloc::{AllocError, Global};

/// The paths of these control units, by channel subsystem: in each those of the first, then of the
/// next, in the order of PATH.
///
/// `AllocError` (M1): memory ran out.
pub fn paths_by(
    alloc: Global,
    config: &Config,
    units: &[UnitNo],
) -> Result<Vec<CssPath>, AllocError>
    ensures { IfOk result (λ paths. paths.items ≡ meaning.paths_by (lookup_of config.now.records) units.now) }
{
    let mut paths = Vec::new(alloc);
    for number in 0u8..6 {
        let Some(css) = Css::new(number) else {
            unreachable!()
        };
        put_paths(&mut paths, config, css, units)?;
    }
    Ok(paths)
}

/// Puts the paths of control units in a channel subsystem behind others.
fn put_paths(
    paths: &mut Vec<CssPath>,
    config: &Config,
    css: Css,
    units: &[UnitNo],
) -> Result<(), AllocError>
    ensures { OnOk result (paths.new.items ≡ paths.old.items
        ++ map (meaning.css_path css) (path_list (lookup_of config.now.records) css units.now)) }
{
    for unit in units {
        put_unit(paths, config, css, *unit)?;
    }
    Ok(())
}

/// Puts those of a control unit; one that isn't there has none.
fn put_unit(
    paths: &mut Vec<CssPath>,
    config: &Config,
    css: Css,
    unit: UnitNo,
) -> Result<(), AllocError>
    ensures { OnOk result (paths.new.items ≡ paths.old.items
        ++ map (meaning.css_path css) (unit_paths (lookup_of config.now.records) css unit)) }
{
    let Some(entry) = config.get(&Key::Unit(unit)) else {
        return Ok(());
    };
    match entry.body() {
        RecordBody::Unit(fields) => put_own(paths, css, fields.paths.as_slice()),
        _ => Ok(()),
    }
}

/// Puts those of these that are in the channel subsystem.
fn put_own(paths: &mut Vec<CssPath>, css: Css, own: &[CssPath]) -> Result<(), AllocError>
    ensures { OnOk result (paths.new.items ≡ paths.old.items
        ++ map (meaning.css_path css) (paths_in css own.now)) }
{
    for path in own {
        if path.css == css {
            paths.push(*path)?;
        }
    }
    Ok(())
}
