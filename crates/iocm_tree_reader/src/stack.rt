ghost use Rattle.std.specs.Prelude.{◌≡◌, ◌+◌, ◌<◌, fold, length, take, IfOk};
ghost use Rattle.std.specs.Option.{option_map};
ghost use Rattle.iocm_tree_reader.specs.Leaves as leaves;
ghost use Rattle.iocm_tree_reader.specs.Reading as meaning;
ghost use Rattle.iocm_tree_reader.specs.Sizes as sizes;
ghost use Rattle.iocm_tree_reader.specs.Views.{node_seen, nodes_seen, open_seen, seen, stack_seen};

use crate::gathering::{no_nodes, node_of_kind, with_node};
use crate::size::{beside, inside, over, size_of_edits, size_of_empty};
use crate::{Node, NodeKind, OpenNode, Reading, Size};
use iocm_tree::Edit;
use iocm_types::Rule;
use std::alloc::{AllocError, Allocator};

/// Before the first statement. Can't run out of memory.
pub fn nothing_read<A: Allocator + Copy>(alloc: A) -> Reading<A>
    ensures { seen result ≡ meaning.nothing_read }
{
    Reading {
        top: no_nodes(alloc),
        stack: Vec::new(alloc),
    }
}

// The size of what is open, where a node of a size is put into it.
fn around<A: Allocator>(size: Size, open: &OpenNode<A>) -> Size
    ensures { result ≡ sizes.around size (open_seen open.now) }
{
    inside(beside(open.parts.size, size))
}

// The size round the open node at a place, with what is inside it.
fn size_at<A: Allocator>(stack: &[OpenNode<A>], at: usize, size: Size) -> Size
    requires { at < length stack.now }
    ensures { fold sizes.around size (stack_seen (take (at + 1) stack.now))
        ≡ fold sizes.around result (stack_seen (take at stack.now)) }
{
    around(size, &stack[at])
}

// The size of all that is open, where a node of a size is put into the innermost.
fn size_around<A: Allocator>(stack: &[OpenNode<A>], size: Size) -> Size
    ensures { result ≡ fold sizes.around size (stack_seen stack.now) }
{
    let mut size = size;
    let mut left = stack.len();
    while left > 0 {
        let at = left - 1;
        size = size_at(stack, at, size);
        left = at;
    }
    size
}

fn size_with<A: Allocator>(reading: &Reading<A>, size: Size) -> Size
    ensures { result ≡ sizes.size_with size (nodes_seen reading.now.top) (stack_seen reading.now.stack.items) }
{
    let size = size_around(&reading.stack, size);
    if reading.top.trees.is_empty() {
        return size;
    }
    inside(beside(reading.top.size, size))
}

fn over_with<A: Allocator>(reading: &Reading<A>, size: Size) -> Option<Rule>
    ensures { result
        ≡ sizes.over (sizes.size_with size (nodes_seen reading.now.top) (stack_seen reading.now.stack.items)) }
{
    over(size_with(reading, size))
}

/// The limit that the tree so far is over, if it is over one, where a node is opened.
pub fn over_opening<A: Allocator>(reading: &Reading<A>, kind: NodeKind, line: usize) -> Option<Rule>
    ensures { result ≡ meaning.over_limit (meaning.tree_so_far (meaning.opened kind line (seen reading.now))) }
{
    let _node = (kind, line);
    over_with(reading, size_of_empty())
}

/// The limit that the tree so far is over, if it is over one, where a node is put into it.
pub fn over_putting<A: Allocator>(reading: &Reading<A>, node: &Node<A>) -> Option<Rule>
    ensures { result ≡ meaning.over_limit (meaning.tree_so_far (meaning.with_node (node_seen node.now)
        (nodes_seen reading.now.top) (stack_seen reading.now.stack.items))) }
{
    over_with(reading, node.size)
}

/// The limit that the tree so far is over, if it is over one, where what so many edits give is put
/// into it. The order of the edits doesn't count.
pub fn over_giving<A: Allocator>(reading: &Reading<A>, edits: &[Edit<A>]) -> Option<Rule>
    ensures { result ≡ meaning.over_limit (meaning.tree_so_far (meaning.with_node
        (leaves.node_of_edits edits.now) (nodes_seen reading.now.top) (stack_seen reading.now.stack.items))) }
{
    over_with(reading, size_of_edits(edits.len()))
}

/// Puts a node behind the parts of the innermost open node, or to the top where none is open.
/// Answers the lack of memory alone.
#[tactic(auto, using(crate::proofs::Stacks::stack_steps))]
pub fn put_node<A: Allocator>(reading: Reading<A>, node: Node<A>) -> Result<Reading<A>, AllocError>
    ensures { IfOk result (λ after. seen after
        ≡ meaning.with_node (node_seen node) (nodes_seen reading.top) (stack_seen reading.stack.items)) }
{
    let Reading { top, mut stack } = reading;
    match stack.pop() {
        None => Ok(Reading {
            top: with_node(top, node)?,
            stack,
        }),
        Some(open) => {
            let OpenNode { kind, line, parts } = open;
            let parts = with_node(parts, node)?;
            stack.push(OpenNode { kind, line, parts })?;
            Ok(Reading { top, stack })
        }
    }
}

/// Opens a node. Answers the lack of memory alone.
#[tactic(auto, using(crate::proofs::Stacks::stack_steps))]
pub fn open_node<A: Allocator + Copy>(
    alloc: A,
    reading: Reading<A>,
    kind: NodeKind,
    line: usize,
) -> Result<Reading<A>, AllocError>
    ensures { IfOk result (λ after. seen after ≡ meaning.opened kind line (seen reading)) }
{
    let Reading { top, mut stack } = reading;
    let parts = no_nodes(alloc);
    stack.push(OpenNode { kind, line, parts })?;
    Ok(Reading { top, stack })
}
