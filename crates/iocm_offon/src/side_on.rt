ghost use Rattle.std.specs.Prelude.{◌≡◌};
ghost use Rattle.std.specs.Option.{option_map};
ghost use Rattle.iocm_plan.specs.RunEffects as meaning;
ghost use Rattle.iocm_plan.specs.Sides.{side_of};

use iocm_config::Config;
use iocm_derive::DeviceWalk;
use iocm_plan::{DeviceRun, Side, Sight};

/// An image with the first device of a run, if both are there.
pub(crate) fn side_on<'a>(
    sight: &mut Option<Sight<'a>>,
    config: &'a Config,
    run: &DeviceRun,
) -> Option<Side<'a>>
    ensures side { option_map side_of result ≡ meaning.side_by sight.old config.entry.now.records run.entry.now }
    ensures same { sight.new ≡ sight.old }
{
    let device = DeviceWalk::new(config).find(run.first.set, run.first.number)?;
    match sight {
        Some(sight) => Some(sight.side(device)),
        None => None,
    }
}
