ghost use Rattle.std.specs.Prelude.{◌≡◌, ◌≤◌, [], List, length, reverse, IfOk};
ghost use Rattle.std.specs.Vec.{vec_capacity};
ghost use Rattle.iocm_activate.specs.Done.{leaves_from};
ghost use Rattle.iocm_tree.specs.Carried.{Carried};
ghost use Rattle.iocm_tree.specs.Trees.{parts_of, row, tree_of};

use iocm_tree::{Edit, Tree};
use std::alloc::{AllocError, Global};

/// Copies of the edits of a Row, the first of them last.
pub fn copies(alloc: Global, tree: &Tree) -> Result<Vec<Edit>, AllocError>
    ensures { IfOk result (λ v. (is : List Carried) → tree_of tree.now ≡ row (leaves_from is) → reverse v.items ≡ is) }
{
    let copy = tree.copy_in(alloc)?;
    let Some(parts) = copy.into_parts() else {
        return Ok(Vec::new(alloc));
    };
    let room = Vec::with_capacity(alloc, parts.len())?;
    Ok(edits_from(parts, room))
}

/// The edits of these parts, the first of them last, in memory that there is for them.
fn edits_from(parts: Vec<Tree>, room: Vec<Edit>) -> Vec<Edit>
    requires none { room.items ≡ [] }
    requires room { length parts.items ≤ vec_capacity room }
    ensures { (is : List Carried) → parts_of parts.items ≡ leaves_from is → reverse result.items ≡ is }
{
    let mut parts = parts;
    let mut edits = room;
    while let Some(part) = parts.pop() {
        if let Some(edit) = part.into_edit() {
            edits.push_reserved(edit);
        }
    }
    edits
}
