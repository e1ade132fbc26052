ghost use Rattle.std.specs.Prelude.{◌≡◌, IfOk};
ghost use Rattle.iocm_tree.specs.Trees.{tree_of, parts_of};

use crate::Tree;
use std::alloc::{AllocError, Allocator};

/// The same tree under another allocator. Answers the lack of memory alone.
#[cycle(copying)]
pub fn copy_tree<A: Allocator, B: Allocator + Copy>(
    tree: &Tree<A>,
    alloc: B,
) -> Result<Tree<B>, AllocError>
    ensures { IfOk result (λ copy. tree_of copy ≡ tree_of tree.now) }
{
    match tree {
        Tree::Leaf(edit) => Ok(Tree::Leaf(edit.copy_in(alloc)?)),
        Tree::Row(parts) => Ok(Tree::Row(copy_parts(parts, alloc)?)),
        Tree::Group(parts) => Ok(Tree::Group(copy_parts(parts, alloc)?)),
        Tree::Choose(parts) => Ok(Tree::Choose(copy_parts(parts, alloc)?)),
    }
}

/// The same parts under another allocator. Answers the lack of memory alone.
#[cycle(copying)]
fn copy_parts<A: Allocator, B: Allocator + Copy>(
    parts: &Vec<Tree<A>, A>,
    alloc: B,
) -> Result<Vec<Tree<B>, B>, AllocError>
    ensures { IfOk result (λ copies. parts_of copies.items ≡ parts_of parts.now.items) }
{
    let mut copies = Vec::with_capacity(alloc, parts.len())?;
    for part in parts {
        let copy = copy_tree(part, alloc)?;
        copies.push(copy)?;
    }
    Ok(copies)
}
