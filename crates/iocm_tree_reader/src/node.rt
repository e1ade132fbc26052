ghost use Rattle.std.specs.Prelude.{◌≡◌};
ghost use Rattle.iocm_tree.specs.Trees.{tree_of};
ghost use Rattle.iocm_tree_reader.specs.Sizes as sizes;

use crate::Size;
use iocm_tree::Tree;
use std::alloc::{Allocator, Global};

/// A closed node, and its size.
#[derive(Drop)]
pub struct Node<A: Allocator = Global> {
    /// Its tree.
    pub tree: Tree<A>,
    /// The size of the tree.
    pub size: Size,
    pub ghost counted: { size ≡ sizes.size_of (tree_of tree) },
}
