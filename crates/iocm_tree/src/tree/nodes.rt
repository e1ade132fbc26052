ghost use Rattle.std.specs.Prelude.{◌≡◌, ◌<◌, ◌^◌};
ghost use Rattle.iocm_model.specs.Change.Tree.{nodes_of, nodes_in};
ghost use Rattle.iocm_tree.specs.Trees.{tree_of, parts_of, plain_tree, plain_parts};

use crate::Tree;
use std::alloc::Allocator;

/// The nodes of a tree.
#[cycle(nodes)]
pub fn count_nodes<A: Allocator>(tree: &Tree<A>) -> u64
    requires { nodes_of (plain_tree (tree_of tree.now)) < 2 ^ 64 }
    ensures { result ≡ nodes_of (plain_tree (tree_of tree.now)) }
{
    match tree {
        Tree::Leaf(_) => 1,
        Tree::Row(parts) => count_among(parts) + 1,
        Tree::Group(parts) => count_among(parts) + 1,
        Tree::Choose(parts) => count_among(parts) + 1,
    }
}

/// The nodes of some parts.
#[cycle(nodes)]
fn count_among<A: Allocator>(parts: &Vec<Tree<A>, A>) -> u64
    requires { nodes_in (plain_parts (parts_of parts.now.items)) < 2 ^ 64 }
    ensures { result ≡ nodes_in (plain_parts (parts_of parts.now.items)) }
{
    let mut count = 0;
    for part in parts {
        count += count_nodes(part);
    }
    count
}
