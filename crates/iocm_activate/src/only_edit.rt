ghost use Rattle.std.specs.Prelude.{◌≡◌, IfOk, map};
ghost use Rattle.std.specs.FinMap.{get};
ghost use Rattle.std.specs.List.{AllByRecursion};
ghost use Rattle.iocm_model.specs.Change.Effect.{values_in};
ghost use Rattle.iocm_activate.specs.Effects.{effect_in};
ghost use Rattle.iocm_activate.specs.OnlyEdit.{cells_of_one, holder_after, live_at, LivesIfSeen, TellsOf};

use crate::effect::{Effect, written_records};
use crate::written::Written;
use iocm_numbers::NumberChange;
use iocm_plant::{Plant, Touched};
use iocm_seats::ViewChange;
use iocm_types::{DevNo, Key, Live, NumberCell, SubId};
use std::alloc::{AllocError, Global};

/// The effect of a change of one edit, under its key. What it touched comes in order, with the
/// devices that have the numbers now. So no number cell and no subchannel is sorted, and no number
/// cell is looked up. A live record is looked up only where something is seen.
///
/// `AllocError` (M1): memory ran out.
pub fn effect_of_one(
    alloc: Global,
    plant: &Plant,
    keys: &[Key],
    touched: &Touched,
) -> Result<Effect, AllocError>
    requires told { TellsOf touched.now plant.now.state }
    ensures { IfOk result (λ e. effect_in e ≡ values_in plant.now.state (cells_of_one keys.now touched.now)) }
{
    // For the proof alone: exactly the subchannels at which something is seen have a live record.
    plant.is_sound();
    let records = written_records(alloc, plant.config(), keys)?;
    let numbers = list_holders(alloc, touched.numbers.as_slice())?;
    let lives = list_lives(alloc, plant, touched.subchannels.as_slice())?;
    Ok(Effect {
        records,
        numbers: Written::of(numbers),
        lives: Written::of(lives),
    })
}

/// The number cells of some changes, each with the device that has it afterwards.
fn list_holders(
    alloc: Global,
    changes: &[NumberChange],
) -> Result<Vec<(NumberCell, Option<DevNo>)>, AllocError>
    ensures { IfOk result (λ listed. listed.items ≡ map holder_after changes.now) }
{
    let mut listed = Vec::with_capacity(alloc, changes.len())?;
    for change in changes {
        listed.push((change.cell, change.after))?;
    }
    Ok(listed)
}

/// The subchannels of some changes, each with its live record now.
fn list_lives(
    alloc: Global,
    plant: &Plant,
    changes: &[ViewChange],
) -> Result<Vec<(SubId, Option<Live>)>, AllocError>
    requires { AllByRecursion (LivesIfSeen plant.now.state.lives) changes.now }
    ensures { IfOk result (λ listed. listed.items ≡ map (live_at plant.now.state.lives) changes.now) }
{
    let mut listed = Vec::with_capacity(alloc, changes.len())?;
    for change in changes {
        let live = live_now(plant, change);
        listed.reserve(1)?;
        listed.push_reserved((change.subchannel, live));
    }
    Ok(listed)
}

/// The live record of the subchannel of a change. Where nothing is seen there, it isn't looked for.
fn live_now(plant: &Plant, change: &ViewChange) -> Option<Live>
    requires { LivesIfSeen plant.now.state.lives change.now }
    ensures { result ≡ get plant.now.state.lives change.now.subchannel }
{
    if change.after.is_none() {
        return None;
    }
    plant.live(change.subchannel)
}
