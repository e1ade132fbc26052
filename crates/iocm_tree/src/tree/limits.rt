ghost use Rattle.std.specs.Prelude.{◌≡◌, ◌<◌, min};
ghost use Rattle.iocm_model.specs.Change.Tree.{depth_of, depth_in, leaves_of, leaves_in, or_one};
ghost use Rattle.iocm_tree.specs.Trees.{tree_of, parts_of, plain_tree, plain_parts};

use crate::Tree;
use std::alloc::Allocator;

/// The depth of a tree, counted up to a limit. It calls itself no deeper than the limit.
#[cycle(depths)]
pub fn depth_within<A: Allocator>(tree: &Tree<A>, most: u32) -> u32
    ensures { result ≡ min most (depth_of (plain_tree (tree_of tree.now))) }
{
    if most == 0 {
        return 0;
    }
    match tree {
        Tree::Leaf(_) => 1,
        Tree::Row(parts) => deepest_within(parts, most - 1) + 1,
        Tree::Group(parts) => deepest_within(parts, most - 1) + 1,
        Tree::Choose(parts) => deepest_within(parts, most - 1) + 1,
    }
}

/// The depth of the deepest of some parts, counted up to a limit; 0 where there are none.
#[cycle(depths)]
fn deepest_within<A: Allocator>(parts: &Vec<Tree<A>, A>, most: u32) -> u32
    ensures { result ≡ min most (depth_in (plain_parts (parts_of parts.now.items))) }
{
    let mut deepest = 0;
    for part in parts {
        deepest = deepest.max(depth_within(part, most));
    }
    deepest
}

/// The leaves of a tree, counted up to a limit. It calls itself no deeper than the tree is.
#[cycle(leaves)]
pub fn leaves_within<A: Allocator>(tree: &Tree<A>, most: u32) -> u32
    ensures { result ≡ min most (leaves_of (plain_tree (tree_of tree.now))) }
{
    if most == 0 {
        return 0;
    }
    match tree {
        Tree::Leaf(_) => 1,
        Tree::Row(parts) => leaves_of_node(parts, most),
        Tree::Group(parts) => leaves_of_node(parts, most),
        Tree::Choose(parts) => leaves_of_node(parts, most),
    }
}

/// The leaves of a node, counted up to a limit; a node without parts counts as one.
#[cycle(leaves)]
fn leaves_of_node<A: Allocator>(parts: &Vec<Tree<A>, A>, most: u32) -> u32
    requires { 0 < most }
    ensures { result ≡ min most (or_one (leaves_in (plain_parts (parts_of parts.now.items)))) }
{
    match leaves_among(parts, most) {
        0 => 1,
        leaves => leaves,
    }
}

/// The leaves of some parts, counted up to a limit.
#[cycle(leaves)]
fn leaves_among<A: Allocator>(parts: &Vec<Tree<A>, A>, most: u32) -> u32
    ensures { result ≡ min most (leaves_in (plain_parts (parts_of parts.now.items))) }
{
    let mut left = most;
    for part in parts {
        left -= leaves_within(part, left);
    }
    most - left
}
