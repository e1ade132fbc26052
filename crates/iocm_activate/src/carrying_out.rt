ghost use Rattle.std.specs.Prelude.{◌≡◌, IfOk, IfErr, OnOk, OnErr, Ok};
ghost use Rattle.iocm_model.specs.Change.InverseTree.{inverse_tree, TakesBack};
ghost use Rattle.iocm_model.specs.Change.Meaning.{meaning};
ghost use Rattle.iocm_model.specs.Laws.Trees.{KeepsTheRules};
ghost use Rattle.iocm_model.specs.Operation.State.{State};
ghost use Rattle.iocm_tree.specs.Trees.{row, tree_of, plain};
ghost use Rattle.iocm_plant.specs.Operating.{KeepsRoom};
ghost use Rattle.iocm_plant.specs.Refusing.{IsDue, no_memory};
ghost use Rattle.iocm_activate.specs.Done.{leaves_from, refusal_in, edits_meant};
ghost use Rattle.iocm_activate.specs.Told.{CanTakeBack, LeadsTo, way_back};

use crate::done::way_back_of;
use crate::log::Log;
use crate::whole_tree::{leave, walk_whole};
use iocm_plant::Plant;
use iocm_tree::Tree;
use iocm_types::Refused;
use std::alloc::{Allocator, Global};

/// Activates a change tree as `activate` does, and gives the tree alone that takes it back. So the
/// undo of a change and its redo make nothing that they would throw away.
///
/// Refused as by `activate`. A refused change leaves the state as it was.
pub fn carry_out<A: Allocator>(
    alloc: Global,
    plant: &mut Plant,
    tree: &Tree<A>,
) -> Result<Tree, Refused>
    requires kept { KeepsTheRules plant.old.state }
    ensures means { OnOk result (meaning (plain tree.now) plant.old.state
        ≡ Ok (record { state = plant.new.state; edits = edits_meant (plain tree.now) plant.old.state })) }
    ensures refused { IfErr result (IsDue (refusal_in (meaning (plain tree.now) plant.old.state))) }
    ensures same { OnErr result (plant.new.state ≡ plant.old.state) }
    ensures kept { KeepsTheRules plant.new.state }
    ensures room { KeepsRoom plant.old.room plant.new.room }
    ensures inverse { IfOk result (λ t. plain t
        ≡ inverse_tree (edits_meant (plain tree.now) plant.old.state) plant.old.state) }
    ensures takes_back { IfOk result (λ t. TakesBack (plain t)
        (edits_meant (plain tree.now) plant.old.state) plant.old.state) }
{
    // For the proof alone: the state is sound.
    plant.is_sound();
    match walk_whole(alloc, plant, tree) {
        Ok(log) => give_way_back(alloc, plant, log),
        Err(why) => Err(why),
    }
}

/// The tree that takes back what was done.
///
/// M1: memory ran out; what was done is taken back.
pub(crate) fn give_way_back(alloc: Global, plant: &mut Plant, log: Log) -> Result<Tree, Refused>
    requires back { CanTakeBack log.done.items plant.old }
    ensures inverse { IfOk result (λ t. tree_of t ≡ row (leaves_from (way_back log.done.items))) }
    ensures done { OnOk result (plant.new ≡ plant.old) }
    ensures refused { IfErr result (λ why. why ≡ no_memory) }
    ensures undone { OnErr result ((s : State) → LeadsTo (way_back log.done.items) s plant.old → plant.new.state ≡ s) }
    ensures room { OnErr result (plant.new.room ≡ plant.old.room) }
{
    match Vec::with_capacity(alloc, log.done.len()) {
        Ok(parts) => {
            let Log {
                done,
                keys: _keys,
                kept: _kept,
            } = log;
            Ok(way_back_of(parts, done))
        }
        Err(_error) => Err(leave(plant, log, Refused::NO_MEMORY)),
    }
}
