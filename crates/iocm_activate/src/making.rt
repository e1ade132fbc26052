ghost use Rattle.std.specs.Prelude.{◌≡◌, IfOk, IfErr, OnOk, OnErr, Ok};
ghost use Rattle.iocm_model.specs.Change.InverseTree.{inverse_tree, TakesBack};
ghost use Rattle.iocm_model.specs.Change.Meaning.{meaning};
ghost use Rattle.iocm_model.specs.Laws.Trees.{KeepsTheRules};
ghost use Rattle.iocm_model.specs.Operation.State.{State};
ghost use Rattle.iocm_tree.specs.Trees.{row, tree_of, plain};
ghost use Rattle.iocm_plant.specs.Operating.{KeepsRoom};
ghost use Rattle.iocm_plant.specs.Refusing.{IsDue, no_memory};
ghost use Rattle.iocm_activate.specs.Done.{AreToldBy, leaves_from, refusal_in, touched_in, edits_meant};
ghost use Rattle.iocm_activate.specs.Told.{CanTakeBack, LeadsTo, told_of_all, way_back};

use crate::done::{Made, prepare, tell};
use crate::log::Log;
use crate::whole_tree::{leave, walk_whole};
use iocm_plant::Plant;
use iocm_tree::Tree;
use iocm_types::Refused;
use std::alloc::{Allocator, Global};

/// Activates a change tree as `activate` does, without its effect: for a report, which tells of the
/// edits alone.
///
/// Refused as by `activate`. A refused change leaves the state as it was.
pub fn make<A: Allocator>(alloc: Global, plant: &mut Plant, tree: &Tree<A>) -> Result<Made, Refused>
    requires kept { KeepsTheRules plant.old.state }
    ensures means { OnOk result (meaning (plain tree.now) plant.old.state
        ≡ Ok (record { state = plant.new.state; edits = edits_meant (plain tree.now) plant.old.state })) }
    ensures refused { IfErr result (IsDue (refusal_in (meaning (plain tree.now) plant.old.state))) }
    ensures same { OnErr result (plant.new.state ≡ plant.old.state) }
    ensures kept { KeepsTheRules plant.new.state }
    ensures room { KeepsRoom plant.old.room plant.new.room }
    ensures inverse { IfOk result (λ d. plain d.inverse
        ≡ inverse_tree (edits_meant (plain tree.now) plant.old.state) plant.old.state) }
    ensures takes_back { IfOk result (λ d. TakesBack (plain d.inverse)
        (edits_meant (plain tree.now) plant.old.state) plant.old.state) }
    ensures performed { IfOk result (λ d. AreToldBy d.performed.items
        (told_of_all (edits_meant (plain tree.now) plant.old.state) plant.old.state)) }
{
    // For the proof alone: the state is sound.
    plant.is_sound();
    match walk_whole(alloc, plant, tree) {
        Ok(log) => finish_made(alloc, plant, log),
        Err(why) => Err(why),
    }
}

/// Tells of a change that was performed.
///
/// M1: memory ran out; the change is taken back.
pub fn finish_made(alloc: Global, plant: &mut Plant, log: Log) -> Result<Made, Refused>
    requires back { CanTakeBack log.done.items plant.old }
    ensures inverse { IfOk result (λ d. tree_of d.inverse ≡ row (leaves_from (way_back log.done.items))) }
    ensures performed { IfOk result (λ d. d.performed.items ≡ touched_in log.done.items) }
    ensures done { OnOk result (plant.new ≡ plant.old) }
    ensures refused { IfErr result (λ why. why ≡ no_memory) }
    ensures undone { OnErr result ((s : State) → LeadsTo (way_back log.done.items) s plant.old → plant.new.state ≡ s) }
    ensures room { OnErr result (plant.new.room ≡ plant.old.room) }
{
    match prepare(alloc, &log) {
        Ok(prepared) => {
            let Log {
                done,
                keys: _keys,
                kept: _kept,
            } = log;
            Ok(tell(prepared, done))
        }
        Err(_error) => Err(leave(plant, log, Refused::NO_MEMORY)),
    }
}
