ghost use Rattle.std.specs.Prelude.{◌≡◌};
ghost use Rattle.iocm_tree.specs.Reversed.{reversed, reversed_before, each_reversed};
ghost use Rattle.iocm_tree.specs.Trees.{none, tree_of, parts_of};

use crate::Tree;
use std::alloc::Allocator;

/// Reverses a tree in place.
#[cycle(reversal)]
pub fn reverse_tree<A: Allocator>(tree: &mut Tree<A>)
    ensures { tree_of tree.new ≡ reversed (tree_of tree.old) }
{
    match tree {
        Tree::Leaf(_) => {}
        Tree::Row(parts) => reverse_parts(parts),
        Tree::Group(parts) => reverse_parts(parts),
        Tree::Choose(parts) => reverse_each(parts),
    }
}

/// Reverses the order of parts and each of them, in place.
#[cycle(reversal)]
fn reverse_parts<A: Allocator>(parts: &mut Vec<Tree<A>, A>)
    ensures { parts_of parts.new.items ≡ reversed_before (parts_of parts.old.items) none }
{
    reverse_each(parts);
    parts.reverse();
}

/// Reverses each of some parts, in place.
#[cycle(reversal)]
fn reverse_each<A: Allocator>(parts: &mut Vec<Tree<A>, A>)
    ensures { parts_of parts.new.items ≡ each_reversed (parts_of parts.old.items) }
{
    for i in 0..parts.len() {
        reverse_tree(&mut parts[i]);
    }
}
