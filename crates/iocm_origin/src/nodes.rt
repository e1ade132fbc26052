ghost use Rattle.std.specs.Prelude.{◌≡◌, ◌≤◌, ◌<◌, ◌+◌, ◌^◌, IfOk, length};
ghost use Rattle.iocm_tree_reader.specs.Leaves.{edits_of};
ghost use Rattle.iocm_origin.specs.Nodes as nodes;

use crate::origin::told;
use iocm_statements::{Operation, Statement};
use iocm_tree_reader::edits_of;
use std::alloc::{AllocError, Global};

/// The line of a change deck that a node of its tree comes from, by its number in the order of the
/// text, from 0. The Row round several statements comes from none, and a number past the last node
/// names none.
///
/// `AllocError` (M1): memory ran out.
pub(crate) fn line_of_node(
    alloc: Global,
    statements: &[Statement],
    node: u64,
) -> Result<Option<usize>, AllocError>
    ensures { IfOk result (λ line. line ≡ nodes.line_of_node statements.now node) }
{
    if count_at_top(statements) == 1 {
        return line_among(alloc, statements, node);
    }
    if node == 0 {
        return Ok(None);
    }
    line_among(alloc, statements, node - 1)
}

/// How many nodes the statements put at the top.
fn count_at_top(statements: &[Statement]) -> usize
    ensures { result ≡ nodes.count_tops 0 0 statements.now }
{
    let mut open_nodes = 0;
    let mut count = 0;
    for statement in statements {
        open_nodes = open_after(statement.operation, open_nodes);
        count += usize::from(open_nodes == 0);
    }
    count
}

/// How many nodes are open after a statement of this operation, where so many were.
fn open_after(operation: Operation, open_nodes: usize) -> usize
    requires { open_nodes + 1 < 2 ^ 64 }
    ensures value { result ≡ nodes.open_after operation open_nodes }
    ensures small { result ≤ open_nodes + 1 }
{
    match operation {
        Operation::Row | Operation::Group | Operation::Choose => open_nodes + 1,
        Operation::End => open_nodes.saturating_sub(1),
        _ => open_nodes,
    }
}

/// The line of the statement that gives a node, counted from the first of these on.
#[tactic(auto, using(crate::proofs::LinesOfNodes::walk_steps))]
fn line_among(
    alloc: Global,
    statements: &[Statement],
    node: u64,
) -> Result<Option<usize>, AllocError>
    ensures { IfOk result (λ line. line ≡ nodes.line_among node statements.now) }
{
    let mut left = node;
    for statement in statements {
        let given = nodes_given(alloc, statement)?;
        if left < given {
            return Ok(Some(statement.line));
        }
        left -= given;
    }
    Ok(None)
}

/// How many nodes a statement gives.
fn nodes_given(alloc: Global, statement: &Statement) -> Result<u64, AllocError>
    ensures { IfOk result (λ count. count ≡ length (nodes.heads_given statement.now)) }
{
    match statement.operation {
        Operation::Row | Operation::Group | Operation::Choose => Ok(1),
        Operation::End => Ok(0),
        _ => nodes_if_given(alloc, statement),
    }
}

/// How many nodes the edits of a statement give; with a fault there are none.
#[tactic(auto, using(crate::proofs::LinesOfNodes::edits_counted))]
fn nodes_if_given(alloc: Global, statement: &Statement) -> Result<u64, AllocError>
    ensures { IfOk result (λ count. count ≡ length (nodes.heads_if_given (edits_of statement.now))) }
{
    match told(edits_of(alloc, alloc, statement))? {
        Ok(edits) => Ok(nodes_of_edits(edits.len())),
        Err(_) => Ok(0),
    }
}

/// How many nodes so many edits give: one is a node by itself, none or several stand in a Row.
fn nodes_of_edits(count: usize) -> u64
    requires { count < 2 ^ 63 }
    ensures { result ≡ length (nodes.row_unless_one count) + count }
{
    match count {
        1 => 1,
        _ => count as u64 + 1,
    }
}
