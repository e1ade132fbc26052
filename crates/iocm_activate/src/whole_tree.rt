ghost use Rattle.std.specs.Prelude.{◌≡◌, IfOk, IfErr, OnErr};
ghost use Rattle.iocm_model.specs.Change.Meaning.{meaning};
ghost use Rattle.iocm_model.specs.Laws.Trees.{KeepsTheRules};
ghost use Rattle.iocm_model.specs.Operation.State.{State};
ghost use Rattle.iocm_tree.specs.Trees.{plain};
ghost use Rattle.iocm_plant.specs.Operating.{KeepsRoom};
ghost use Rattle.iocm_plant.specs.Refusing.{IsDue};
ghost use Rattle.iocm_activate.specs.Done.{refusal_in};
ghost use Rattle.iocm_activate.specs.Told.{CanTakeBack, LeadsTo, way_back};
ghost use Rattle.iocm_activate.specs.Walked.{WasAccepted};

use crate::log::Log;
use crate::taking_back::take_all_back;
use crate::walk::walk_closed;
use iocm_plant::Plant;
use iocm_tree::Tree;
use iocm_types::Refused;
use std::alloc::{Allocator, Global};

/// Performs a change tree on a machine that keeps the rules: all of its edits that it means, or
/// none. The answer is the log of what was done.
///
/// Refused by C1 or C2, if the tree is over a limit; else by the first refusal that the tree means.
/// M1, which may stand in place of any other: memory ran out. A refused tree leaves the state as
/// it was.
pub fn walk_whole<A: Allocator>(
    alloc: Global,
    plant: &mut Plant,
    tree: &Tree<A>,
) -> Result<Log, Refused>
    requires kept { KeepsTheRules plant.old.state }
    ensures accepted { IfOk result (WasAccepted (plain tree.now) plant.old plant.new) }
    ensures refused { IfErr result (IsDue (refusal_in (meaning (plain tree.now) plant.old.state))) }
    ensures same { OnErr result (plant.new.state ≡ plant.old.state) }
    ensures room { KeepsRoom plant.old.room plant.new.room }
{
    // For the proof alone: the state is sound.
    plant.is_sound();
    if let Some(why) = tree.refusal() {
        return Err(why);
    }
    let mut log = Log::new(alloc);
    match walk_closed(alloc, plant, &mut log, tree, 0) {
        Ok(None) => Ok(log),
        Ok(Some(why)) => Err(leave(plant, log, why)),
        Err(_error) => Err(leave(plant, log, Refused::NO_MEMORY)),
    }
}

/// Takes back what was done, for this reason. Can't run out of memory.
pub fn leave(plant: &mut Plant, log: Log, why: Refused) -> Refused
    requires back { CanTakeBack log.done.items plant.old }
    ensures why { result ≡ why }
    ensures undone { (s : State) → LeadsTo (way_back log.done.items) s plant.old → plant.new.state ≡ s }
    ensures room { plant.new.room ≡ plant.old.room }
{
    take_all_back(plant, log);
    why
}
