ghost use Rattle.std.specs.Prelude.{◌≡◌, ◌≤◌, [], length, IfErr, IfOk, OnOk, Ok, List, reverse};
ghost use Rattle.std.specs.Vec.{vec_capacity};
ghost use Rattle.iocm_history.specs.Change.{change_of};
ghost use Rattle.iocm_model.specs.Change.Meaning.{meaning};
ghost use Rattle.iocm_model.specs.Change.Runs.{state_after_all};
ghost use Rattle.iocm_model.specs.Laws.Trees.{KeepsTheRules};
ghost use Rattle.iocm_tree.specs.Carried.{Carried};
ghost use Rattle.iocm_tree.specs.Trees.{row, tree_of, plain};
ghost use Rattle.iocm_plant.specs.Operating.{KeepsRoom};
ghost use Rattle.iocm_plant.specs.Refusing.{IsDue};
ghost use Rattle.iocm_activate.specs.Done.{leaves_from, refusal_in, edits_meant};
ghost use Rattle.iocm_stage.specs.Staged.{IsStageOf};

use crate::copies::copies;
use crate::performing::take_back;
use crate::staged::Staged;
use iocm_activate::{Done, activate};
use iocm_plant::Plant;
use iocm_tree::{Edit, Tree};
use iocm_types::Refused;
use std::alloc::{AllocError, Allocator, Global};

/// Begins a change: it is tried whole on a machine that keeps the rules, and taken back. Then it
/// can be advanced, committed and aborted without memory. The state stays as it is.
///
/// Refused as the activation of the tree is: by the first refusal that it means, or M1, where
/// memory ran out.
///
/// Promise: a begin tries a change whole, and changes nothing yet.
pub fn begin<A: Allocator>(
    alloc: Global,
    plant: &mut Plant,
    tree: &Tree<A>,
) -> Result<Staged, Refused>
    requires kept { KeepsTheRules plant.old.state }
    ensures means { OnOk result (meaning (plain tree.now) plant.old.state
        ≡ Ok (record {
          state = state_after_all
              (edits_meant (plain tree.now) plant.old.state) plant.old.state;
          edits = edits_meant
              (plain tree.now) plant.old.state;
        })) }
    ensures staged { IfOk result (λ g. IsStageOf g
        (record {
          change = change_of
              (meaning (plain tree.now) plant.old.state) plant.old.state;
          advances = 0;
        }) plant.old.state plant.new) }
    ensures refused { IfErr result (IsDue (refusal_in (meaning (plain tree.now) plant.old.state))) }
    ensures same { plant.new.state ≡ plant.old.state }
    ensures room { KeepsRoom plant.old.room plant.new.room }
{
    // For the proof alone: the state is sound.
    plant.is_sound();
    let done = activate(alloc, plant, tree)?;
    let Ok(moves) = Moves::of(alloc, &done) else {
        take_back(plant, done.inverse);
        return Err(Refused::NO_MEMORY);
    };
    let Moves { back, forward } = moves;
    let mut staged = Staged {
        done,
        forward,
        back,
    };
    staged.go_back(plant);
    Ok(staged)
}

/// The edits that take a change back, and memory for those that do it again.
#[derive(Drop)]
struct Moves {
    back: Vec<Edit>,
    forward: Vec<Edit>,
}

impl Moves {
    /// Those of a change.
    fn of(alloc: Global, done: &Done) -> Result<Moves, AllocError>
        ensures back { IfOk result (λ m. (is : List Carried) → tree_of done.now.inverse ≡ row (leaves_from is)
            → reverse m.back.items ≡ is) }
        ensures none { IfOk result (λ m. m.forward.items ≡ []) }
        ensures room { IfOk result (λ m. length m.back.items ≤ vec_capacity m.forward) }
    {
        let back = copies(alloc, &done.inverse)?;
        let forward = Vec::with_capacity(alloc, back.len())?;
        Ok(Moves { back, forward })
    }
}
