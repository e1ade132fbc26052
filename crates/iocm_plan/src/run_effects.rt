ghost use Rattle.std.specs.Prelude.{◌≡◌, IfOk};
ghost use Rattle.std.specs.Option.{option_map};
ghost use Rattle.iocm_model.specs.Machine.Configuration.{lookup_of};
ghost use Rattle.iocm_plan.specs.Left.{effects_on_runs};
ghost use Rattle.iocm_plan.specs.RunEffects as meaning;
ghost use Rattle.iocm_plan.specs.Sides.{side_of};

use crate::effect::Effect;
use crate::left::left_between;
use crate::runs::DeviceRun;
use crate::side::Side;
use crate::sight::{Sight, sight_at};
use iocm_config::Config;
use iocm_derive::DeviceWalk;
use iocm_filter::Filters;
use iocm_types::Image;
use std::alloc::{AllocError, Global};

/// What a change does to the image at a place and to each of some runs of devices, as filters leave it; with
/// `is_lost`, only where a device is lost to the image. The time is that of one look at each run, and of finding the
/// image's paths once.
///
/// `AllocError` (M1): memory ran out.
pub fn effects_on_runs(
    alloc: Global,
    filters: &Filters,
    is_lost: bool,
    old: &Config,
    new: &Config,
    image: &Image,
    runs: &[DeviceRun],
) -> Result<Vec<Effect>, AllocError>
    ensures { IfOk result (λ effects. effects.items ≡ effects_on_runs filters.now is_lost
        (lookup_of old.now.records) (lookup_of new.now.records) image.now runs.now) }
{
    let (css, mif) = (image.css, image.mif);
    let mut before = sight_at(old, Image { css, mif });
    let mut after = sight_at(new, Image { css, mif });
    let mut effects = Vec::new(alloc);
    for run in runs {
        let side = side_on(&mut before, old, run);
        let other = side_on(&mut after, new, run);
        effects.push(left_between(filters, is_lost, &run.first, &side, &other))?;
    }
    Ok(effects)
}

/// Whether an image is affected: an effect of some run is told of it.
pub fn is_affected(effects: &[Effect]) -> bool
    ensures { result ≡ meaning.is_affected effects.now }
{
    effects.iter().any(|effect| effect.affects())
}

/// An image with the first device of a run, if both are there.
fn side_on<'a>(
    sight: &mut Option<Sight<'a>>,
    config: &'a Config,
    run: &DeviceRun,
) -> Option<Side<'a>>
    ensures side { option_map side_of result ≡ meaning.side_by sight.old config.entry.now.records run.entry.now }
    ensures same { sight.new ≡ sight.old }
{
    let device = DeviceWalk::new(config).find(run.first.set, run.first.number)?;
    match sight {
        Some(sight) => Some(sight.side(device)),
        None => None,
    }
}
