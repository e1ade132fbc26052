ghost use Rattle.std.specs.Prelude.{◌≡◌, map};
ghost use Rattle.iocm_tree.specs.Trees.{tree_of};
ghost use Rattle.iocm_tree_reader.specs.Sizes as sizes;

use crate::Size;
use iocm_tree::Tree;
use std::alloc::{Allocator, Global};

/// Closed nodes beside each other, and their size.
#[derive(Drop)]
pub struct Nodes<A: Allocator = Global> {
    /// Their trees, in order.
    pub trees: Vec<Tree<A>, A>,
    /// The size of all of them.
    pub size: Size,
    pub ghost counted: { size ≡ sizes.size_among (map tree_of trees.items) },
}
