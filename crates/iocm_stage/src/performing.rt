ghost use Rattle.std.specs.Prelude.{◌≡◌, reverse};
ghost use Rattle.iocm_model.specs.Operation.State.{State};
ghost use Rattle.iocm_activate.specs.Done.{IsWayBack};
ghost use Rattle.iocm_activate.specs.Told.{LeadsTo};
ghost use Rattle.iocm_tree.specs.Trees.{tree_of};
ghost use Rattle.iocm_stage.specs.Performing.{LeadsOn, GoesBack};

use iocm_plant::Plant;
use iocm_tree::{Edit, Tree};

/// Performs edits one after the other, the last of them first. Can't run out of memory.
pub fn perform_all(plant: &mut Plant, edits: Vec<Edit>)
    requires { LeadsOn (reverse edits.items) plant.old }
    ensures state { (s : State) → LeadsTo (reverse edits.items) s plant.old → plant.new.state ≡ s }
    ensures room { plant.new.room ≡ plant.old.room }
{
    let mut edits = edits;
    while let Some(edit) = edits.pop() {
        let _back = plant.unapply(edit);
    }
}

/// Takes a change back by its inverse tree, edit by edit. Can't run out of memory.
pub fn take_back(plant: &mut Plant, inverse: Tree)
    requires { GoesBack (tree_of inverse) plant.old }
    ensures state { (s : State) → IsWayBack (tree_of inverse) s plant.old → plant.new.state ≡ s }
    ensures room { plant.new.room ≡ plant.old.room }
{
    let Some(mut parts) = inverse.into_parts() else {
        return;
    };
    parts.reverse();
    while let Some(part) = parts.pop() {
        if let Some(edit) = part.into_edit() {
            let _again = plant.unapply(edit);
        }
    }
}
