ghost use Rattle.std.specs.Prelude.{◌≡◌, nat_eq, Some};
ghost use Rattle.std.specs.List.{list_any};
ghost use Rattle.iocm_model.specs.Machine.Mask as mask;
ghost use Rattle.iocm_plan.specs.Seen as meaning;
ghost use Rattle.iocm_plan.specs.Sides.{side_of};

use iocm_plan::Side;
use iocm_types::{Chpid, Key};

/// Whether a path is in the view, and online to the image.
pub(crate) fn is_on(side: &Side<'_>, path: Chpid) -> bool
    ensures { result ≡ meaning.is_on (Some (side_of side.now)) path }
{
    let Some(view) = &side.view else {
        return false;
    };
    has(view.paths.as_slice(), path) && is_online(side, path)
}

/// Whether a path is online to the image.
fn is_online(side: &Side<'_>, path: Chpid) -> bool
    ensures { result ≡ mask.is_online (side_of side.now).records side.now.image.css side.now.name path }
{
    let key = Key::Online(side.image.css, path, side.name);
    side.config.get(&key).is_some()
}

/// Whether a path is among others.
fn has(paths: &[Chpid], path: Chpid) -> bool
    ensures { result ≡ list_any (nat_eq path) paths.now }
{
    paths.iter().any(|own| path == *own)
}
