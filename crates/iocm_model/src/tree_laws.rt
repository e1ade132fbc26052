ghost use Rattle.iocm_model.specs.Laws.Trees.{AcceptedTreesAreRuns, InverseTreesTakeBack, NodesAreBounded};

/// An accepted tree performs edits that are accepted one after the other, and leaves a state in
/// which the rules hold.
pub fn accepted_trees_are_runs()
    ensures { AcceptedTreesAreRuns }
{}

/// The Row of the inverses, the last first, is an inverse of an accepted tree: at every state with
/// the configuration and the numbers after it in which the altered subchannels are quiet, it is
/// accepted, and means that state with the cells that the tree wrote as these were before.
///
/// Promise: the inverse takes a change back from the records and numbers it left, if all is quiet.
pub fn inverse_trees_take_back()
    ensures { InverseTreesTakeBack }
{}

/// A change tree has at most as many nodes as its depth times its leaves, so the limits on depth
/// and leaves bound the numbers of its nodes.
pub fn the_nodes_of_a_tree_are_bounded()
    ensures bounded { NodesAreBounded }
{}
