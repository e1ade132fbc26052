ghost use Rattle.std.specs.Prelude.{◌≡◌, [], ◌∷◌, ◌++◌, map, IfOk};
ghost use Rattle.iocm_tree.specs.Trees.{leaf, tree_of};
ghost use Rattle.iocm_tree_reader.specs.Leaves as leaves;
ghost use Rattle.iocm_tree_reader.specs.Reading as meaning;
ghost use Rattle.iocm_tree_reader.specs.Views.{node_seen, nodes_seen};

use crate::size::{beside, inside, size_of_empty, size_of_none};
use crate::{Node, NodeKind, Nodes};
use iocm_tree::{Edit, Tree};
use std::alloc::{AllocError, Allocator};

/// No nodes. Can't run out of memory.
pub fn no_nodes<A: Allocator>(alloc: A) -> Nodes<A>
    ensures { nodes_seen result ≡ [] }
{
    Nodes {
        trees: Vec::new(alloc),
        size: size_of_none(),
    }
}

/// The nodes with one more behind them. Answers the lack of memory alone.
#[tactic(auto, using(crate::proofs::Counting::counting_steps))]
pub fn with_node<A: Allocator>(nodes: Nodes<A>, node: Node<A>) -> Result<Nodes<A>, AllocError>
    ensures { IfOk result (λ after. nodes_seen after ≡ nodes_seen nodes ++ node_seen node ∷ []) }
{
    let Nodes { mut trees, size } = nodes;
    let Node { tree, size: added } = node;
    trees.push(tree)?;
    Ok(Nodes {
        trees,
        size: beside(size, added),
    })
}

#[tactic(auto, using(crate::proofs::Counting::tree_steps))]
fn tree_of_kind<A: Allocator>(kind: NodeKind, trees: Vec<Tree<A>, A>) -> Tree<A>
    ensures { tree_of result ≡ meaning.node_of_kind kind (map tree_of trees.items) }
{
    match kind {
        NodeKind::Row => Tree::Row(trees),
        NodeKind::Group => Tree::Group(trees),
        NodeKind::Choose => Tree::Choose(trees),
    }
}

/// A node of these parts. Can't run out of memory.
#[tactic(auto, using(crate::proofs::Counting::counting_steps))]
pub fn node_of_kind<A: Allocator>(kind: NodeKind, parts: Nodes<A>) -> Node<A>
    ensures { node_seen result ≡ meaning.node_of_kind kind (nodes_seen parts) }
{
    let Nodes { trees, size } = parts;
    Node {
        tree: tree_of_kind(kind, trees),
        size: inside(size),
    }
}

/// One node alone is the tree; none or several are the parts of a Row. Can't run out of memory.
#[tactic(auto, using(crate::proofs::Counting::counting_steps))]
pub fn whole<A: Allocator>(nodes: Nodes<A>) -> Node<A>
    ensures { node_seen result ≡ leaves.whole (nodes_seen nodes) }
{
    let Nodes { mut trees, size } = nodes;
    if trees.len() != 1 {
        return Node {
            tree: tree_of_kind(NodeKind::Row, trees),
            size: inside(size),
        };
    }
    match trees.pop() {
        Some(tree) => Node { tree, size },
        None => unreachable!(),
    }
}

#[tactic(auto, using(crate::proofs::Counting::tree_steps))]
fn leaf_node<A: Allocator>(edit: Edit<A>) -> Node<A>
    ensures { node_seen result ≡ leaf edit }
{
    Node {
        tree: Tree::Leaf(edit),
        size: size_of_empty(),
    }
}

/// A leaf for each edit. Answers the lack of memory alone.
pub fn leaves_of<A: Allocator + Copy>(
    alloc: A,
    edits: Vec<Edit<A>, A>,
) -> Result<Nodes<A>, AllocError>
    ensures { IfOk result (λ nodes. nodes_seen nodes ≡ map leaf edits.items) }
{
    let mut nodes = no_nodes(alloc);
    for edit in edits {
        nodes = with_node(nodes, leaf_node(edit))?;
    }
    Ok(nodes)
}
