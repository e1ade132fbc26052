ghost use Rattle.std.specs.Prelude.{◌≡◌, IfOk, IfErr, OnOk, OnErr, Ok};
ghost use Rattle.iocm_model.specs.Change.Effect.{values_in};
ghost use Rattle.iocm_model.specs.Change.InverseTree.{inverse_tree, TakesBack};
ghost use Rattle.iocm_model.specs.Change.Meaning.{meaning};
ghost use Rattle.iocm_model.specs.Change.Runs as runs;
ghost use Rattle.iocm_model.specs.Laws.Trees.{KeepsTheRules};
ghost use Rattle.iocm_model.specs.Operation.State.{State};
ghost use Rattle.iocm_tree.specs.Trees.{row, tree_of, plain};
ghost use Rattle.iocm_plant.specs.Operating.{KeepsRoom};
ghost use Rattle.iocm_plant.specs.Refusing.{IsDue, no_memory};
ghost use Rattle.iocm_activate.specs.Done.{AreToldBy, IsWayBack, leaves_from, refusal_in, touched_in, edits_meant};
ghost use Rattle.iocm_activate.specs.Effects.{cells_told, effect_in};
ghost use Rattle.iocm_activate.specs.Told.{CanTakeBack, HaveLedTo, LeadsTo, told_of_all, way_back};

use crate::done::{Done, Made};
use crate::effect::{Effect, effect_of};
use crate::log::Log;
use crate::making::finish_made;
use crate::whole_tree::{leave, walk_whole};
use iocm_plant::Plant;
use iocm_tree::Tree;
use iocm_types::Refused;
use std::alloc::{Allocator, Global};

/// Activates a change tree on a machine that keeps the rules: all the edits that it means, or none.
///
/// Refused by C1 or C2, if the tree is over a limit; else by the first refusal that the tree means,
/// at its node: E1, E2, E4 or B1 of an edit, E3 of a Choose without parts, V1 to V14 where the
/// rules are broken at the end of a node. M1, which may stand in place of any other: memory ran
/// out. A refused change leaves the state as it was.
///
/// Promise: a change is made whole, with its inverse, or it is refused and nothing is changed.
pub fn activate<A: Allocator>(
    alloc: Global,
    plant: &mut Plant,
    tree: &Tree<A>,
) -> Result<Done, Refused>
    requires kept { KeepsTheRules plant.old.state }
    ensures means { OnOk result (meaning (plain tree.now) plant.old.state
        ≡ Ok (record { state = plant.new.state; edits = edits_meant (plain tree.now) plant.old.state })) }
    ensures refused { IfErr result (IsDue (refusal_in (meaning (plain tree.now) plant.old.state))) }
    ensures same { OnErr result (plant.new.state ≡ plant.old.state) }
    ensures kept { KeepsTheRules plant.new.state }
    ensures room { KeepsRoom plant.old.room plant.new.room }
    ensures inverse { IfOk result (λ d. plain d.inverse
        ≡ inverse_tree (edits_meant (plain tree.now) plant.old.state) plant.old.state) }
    ensures takes_back { IfOk result (λ d. TakesBack (plain d.inverse)
        (edits_meant (plain tree.now) plant.old.state) plant.old.state) }
    ensures back { IfOk result (λ d. IsWayBack (tree_of d.inverse) plant.old.state plant.new) }
    ensures effect { IfOk result (λ d. effect_in d.effect
        ≡ runs.effect_of (edits_meant (plain tree.now) plant.old.state) plant.old.state) }
    ensures performed { IfOk result (λ d. AreToldBy d.performed.items
        (told_of_all (edits_meant (plain tree.now) plant.old.state) plant.old.state)) }
{
    // For the proof alone: the state is sound.
    plant.is_sound();
    match walk_whole(alloc, plant, tree) {
        Ok(log) => finish(alloc, plant, log),
        Err(why) => Err(why),
    }
}

/// Tells of a change that was performed.
///
/// M1: memory ran out; the change is taken back.
fn finish(alloc: Global, plant: &mut Plant, log: Log) -> Result<Done, Refused>
    requires back { CanTakeBack log.done.items plant.old }
    requires told { HaveLedTo log.done.items plant.old.state }
    ensures inverse { IfOk result (λ d. tree_of d.inverse ≡ row (leaves_from (way_back log.done.items))) }
    ensures effect { IfOk result (λ d. effect_in d.effect ≡ values_in plant.old.state (cells_told log)) }
    ensures performed { IfOk result (λ d. d.performed.items ≡ touched_in log.done.items) }
    ensures done { OnOk result (plant.new ≡ plant.old) }
    ensures refused { IfErr result (λ why. why ≡ no_memory) }
    ensures undone { OnErr result ((s : State) → LeadsTo (way_back log.done.items) s plant.old → plant.new.state ≡ s) }
    ensures room { OnErr result (plant.new.room ≡ plant.old.room) }
{
    match effect_of(alloc, plant, &log) {
        Ok(effect) => finish_with(alloc, plant, log, effect),
        Err(_error) => Err(leave(plant, log, Refused::NO_MEMORY)),
    }
}

/// The same, where it is known what the change wrote.
fn finish_with(alloc: Global, plant: &mut Plant, log: Log, effect: Effect) -> Result<Done, Refused>
    requires back { CanTakeBack log.done.items plant.old }
    ensures inverse { IfOk result (λ d. tree_of d.inverse ≡ row (leaves_from (way_back log.done.items))) }
    ensures effect { IfOk result (λ d. d.effect ≡ effect) }
    ensures performed { IfOk result (λ d. d.performed.items ≡ touched_in log.done.items) }
    ensures done { OnOk result (plant.new ≡ plant.old) }
    ensures refused { IfErr result (λ why. why ≡ no_memory) }
    ensures undone { OnErr result ((s : State) → LeadsTo (way_back log.done.items) s plant.old → plant.new.state ≡ s) }
    ensures room { OnErr result (plant.new.room ≡ plant.old.room) }
{
    match finish_made(alloc, plant, log) {
        Ok(made) => {
            let Made { inverse, performed } = made;
            Ok(Done {
                inverse,
                effect,
                performed,
            })
        }
        Err(why) => Err(why),
    }
}
