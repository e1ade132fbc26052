ghost use Rattle.std.specs.Prelude.{◌≡◌, IfOk};
ghost use Rattle.iocm_types.specs.Fault.{Gives};
ghost use Rattle.iocm_tree.specs.Trees.{tree_of};
ghost use Rattle.iocm_tree_reader.specs.Leaves as leaves;
ghost use Rattle.iocm_tree_reader.specs.Reading as meaning;
ghost use Rattle.iocm_tree_reader.specs.Views.{node_seen, nodes_seen, seen, stack_seen};

use crate::gathering::{leaves_of, node_of_kind, whole};
use crate::leaves::edits_of;
use crate::order::in_key_order;
use crate::stack::{nothing_read, open_node, over_giving, over_opening, over_putting, put_node};
use crate::{Node, NodeKind, OpenNode, Reading};
use iocm_statements::{Operation, Statement};
use iocm_tree::{Edit, Tree};
use iocm_types::{Fault, Rule};
use std::alloc::{AllocError, Allocator, Global};

// A node is opened, if the tree so far stays within the limits.
fn open_within<A: Allocator + Copy>(
    alloc: A,
    reading: Reading<A>,
    kind: NodeKind,
    line: usize,
) -> Result<Reading<A>, Fault>
    ensures { Gives seen result (meaning.within_limits line (meaning.opened kind line (seen reading))) }
{
    match over_opening(&reading, kind, line) {
        Some(rule) => Err(Fault { rule, line }),
        None => Ok(open_node(alloc, reading, kind, line)?),
    }
}

// A node is put where it belongs, if the tree so far stays within the limits.
fn put_within<A: Allocator>(
    reading: Reading<A>,
    node: Node<A>,
    line: usize,
) -> Result<Reading<A>, Fault>
    ensures { Gives seen result (meaning.within_limits line
        (meaning.with_node (node_seen node) (nodes_seen reading.top) (stack_seen reading.stack.items))) }
{
    match over_putting(&reading, &node) {
        Some(rule) => Err(Fault { rule, line }),
        None => Ok(put_node(reading, node)?),
    }
}

// The innermost open node is closed.
#[tactic(auto, using(crate::proofs::Stacks::stack_steps))]
fn close_within<A: Allocator>(reading: Reading<A>, line: usize) -> Result<Reading<A>, Fault>
    ensures { Gives seen result
        (meaning.limited line (meaning.ended line (nodes_seen reading.top) (stack_seen reading.stack.items))) }
{
    let Reading { top, mut stack } = reading;
    match stack.pop() {
        None => Err(Fault {
            rule: Rule::S9,
            line,
        }),
        Some(open) => {
            let OpenNode {
                kind,
                line: _,
                parts,
            } = open;
            put_within(Reading { top, stack }, node_of_kind(kind, parts), line)
        }
    }
}

// What edits give is put where it belongs. How many they are decides on the limits before they are
// put in order.
fn give_within<A: Allocator + Copy>(
    alloc: A,
    reading: Reading<A>,
    edits: Vec<Edit<A>, A>,
    line: usize,
) -> Result<Reading<A>, Fault>
    ensures { Gives seen result (meaning.within_limits line (meaning.with_node
        (leaves.node_of_edits edits.items) (nodes_seen reading.top) (stack_seen reading.stack.items))) }
{
    match over_giving(&reading, edits.as_slice()) {
        Some(rule) => Err(Fault { rule, line }),
        None => Ok(put_node(reading, node_of_edits(alloc, edits)?)?),
    }
}

// A leaf for each edit, in the order of keys.
fn node_of_edits<A: Allocator + Copy>(
    alloc: A,
    edits: Vec<Edit<A>, A>,
) -> Result<Node<A>, AllocError>
    ensures { IfOk result (λ node. node_seen node ≡ leaves.node_of_edits edits.items) }
{
    let sorted = in_key_order(edits)?;
    Ok(whole(leaves_of(alloc, sorted)?))
}

// What a statement gives is put where it belongs.
fn edits_within<A: Allocator + Copy>(
    global: Global,
    alloc: A,
    reading: Reading<A>,
    statement: &Statement,
) -> Result<Reading<A>, Fault>
    ensures { Gives seen result (meaning.limited statement.now.line
        (meaning.with_edits statement.now (nodes_seen reading.top) (stack_seen reading.stack.items))) }
{
    let edits = edits_of(global, alloc, statement)?;
    give_within(alloc, reading, edits, statement.line)
}

fn read_next<A: Allocator + Copy>(
    global: Global,
    alloc: A,
    reading: Reading<A>,
    statement: &Statement,
) -> Result<Reading<A>, Fault>
    ensures { Gives seen result (meaning.read_next (seen reading) statement.now) }
{
    let line = statement.line;
    match statement.operation {
        Operation::Row => open_within(alloc, reading, NodeKind::Row, line),
        Operation::Group => open_within(alloc, reading, NodeKind::Group, line),
        Operation::Choose => open_within(alloc, reading, NodeKind::Choose, line),
        Operation::End => close_within(reading, line),
        Operation::Id => edits_within(global, alloc, reading, statement),
        Operation::Resource => edits_within(global, alloc, reading, statement),
        Operation::Chpid => edits_within(global, alloc, reading, statement),
        Operation::Cntlunit => edits_within(global, alloc, reading, statement),
        Operation::Iodevice => edits_within(global, alloc, reading, statement),
        Operation::Online => edits_within(global, alloc, reading, statement),
    }
}

// At the end nothing may be open.
#[tactic(auto, using(crate::proofs::Stacks::stack_steps))]
fn finish<A: Allocator>(reading: Reading<A>) -> Result<Tree<A>, Fault>
    ensures { Gives tree_of result (meaning.finished (nodes_seen reading.top) (stack_seen reading.stack.items)) }
{
    let Reading { top, mut stack } = reading;
    match stack.pop() {
        Some(open) => Err(Fault {
            rule: Rule::S9,
            line: open.line,
        }),
        None => {
            let Node { tree, size: _ } = whole(top);
            Ok(tree)
        }
    }
}

/// The tree of a change deck. What is needed only while a statement is read lies in `global`, the
/// tree in `alloc`.
///
/// The statements are taken in order, and the first that has a fault refuses the deck with its
/// line. Per statement the first of these counts: S10, a statement that wants a verb has none; S3,
/// S5 and S4, as `records_of` and `keys_of` of `iocm_change_records` say; S9, END where nothing is
/// open; C1, the tree so far is deeper than 32; C2, it has more than 4,096 leaves. At last S9 has
/// the line of the innermost node that is still open. M1 comes without memory.
///
/// Promise: a change deck is read exactly, or its first fault is answered.
#[tactic(auto, using(crate::proofs::Statements::read_steps))]
pub fn read_tree<A: Allocator + Copy>(
    global: Global,
    alloc: A,
    statements: &[Statement],
) -> Result<Tree<A>, Fault>
    ensures { Gives tree_of result (meaning.read_tree statements.now) }
{
    let mut reading = nothing_read(alloc);
    for statement in statements {
        reading = read_next(global, alloc, reading, statement)?;
    }
    finish(reading)
}
