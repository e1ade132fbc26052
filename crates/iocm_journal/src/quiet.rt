ghost use Rattle.std.specs.Prelude.{◌≡◌};
ghost use Rattle.std.specs.FinMap as map;
ghost use Rattle.std.specs.Option.{option_map};
ghost use Rattle.iocm_model.specs.Change.Refusal as refusal;
ghost use Rattle.iocm_activate.specs.Effects.{effect_in};
ghost use Rattle.iocm_journal.specs.Deciding.{not_quiet};

use iocm_activate::Effect;
use iocm_plant::Plant;
use iocm_types::{At, Live, Phase, Refused, Rule, SubId};

/// B1, with the least of the subchannels that a change altered that isn't quiet, if there is one.
pub fn refused_for_not_quiet(plant: &Plant, change: &Effect) -> Option<Refused>
    ensures { result ≡ option_map not_quiet
        (refusal.first_not_quiet plant.now.state.lives (map.keys (effect_in change.now).lives)) }
{
    let subchannel = first_not_quiet(plant, change)?;
    Some(Refused::about(Rule::B1, At::Subchannel(subchannel)))
}

/// The least of the subchannels that a change altered that isn't quiet, if there is one.
fn first_not_quiet(plant: &Plant, change: &Effect) -> Option<SubId>
    ensures { result ≡ refusal.first_not_quiet plant.now.state.lives (map.keys (effect_in change.now).lives) }
{
    for cell in change.lives.cells() {
        if is_not_quiet(plant.live(cell.0)) {
            return Some(cell.0);
        }
    }
    None
}

/// Whether a function is in progress, or status is pending; not where there is no live record.
fn is_not_quiet(live: Option<Live>) -> bool
    ensures { result ≡ refusal.is_not_quiet live }
{
    match live {
        Some(live) => !matches!(live.phase, Phase::Idle),
        None => false,
    }
}
