ghost use Rattle.std.specs.Prelude.{◌≡◌, ◌++◌, map, IfOk, OnOk};
ghost use Rattle.iocm_tree.specs.Trees.{parts_of, plain_parts, plain_tree, tree_of};
ghost use Rattle.iocm_tree_writer.specs.Written as meaning;

use crate::lines::{put_edit, put_word};
use iocm_columns::Joined;
use iocm_statements::Operation;
use iocm_tree::Tree;
use std::alloc::{AllocError, Allocator, Global};

// The lines of a tree, behind a deck.
#[cycle(writing)]
fn put_tree<A: Allocator>(
    alloc: Global,
    tree: &Tree<A>,
    deck: &mut Vec<Joined>,
) -> Result<(), AllocError>
    ensures { OnOk result (deck.new.items ≡ deck.old.items ++ meaning.written (plain_tree (tree_of tree.now))) }
{
    match tree {
        Tree::Leaf(edit) => put_edit(alloc, edit, deck),
        Tree::Row(parts) => put_node(alloc, Operation::Row, parts, deck),
        Tree::Group(parts) => put_node(alloc, Operation::Group, parts, deck),
        Tree::Choose(parts) => put_node(alloc, Operation::Choose, parts, deck),
    }
}

// The lines of parts between an operation and its END, behind a deck.
#[cycle(writing)]
fn put_node<A: Allocator>(
    alloc: Global,
    operation: Operation,
    parts: &Vec<Tree<A>, A>,
    deck: &mut Vec<Joined>,
) -> Result<(), AllocError>
    ensures { OnOk result (deck.new.items ≡ deck.old.items ++ map meaning.line_to_write
        (meaning.enclosed operation (meaning.lines_in (plain_parts (parts_of parts.now.items))))) }
{
    put_word(alloc, operation, deck)?;
    put_parts(alloc, parts, deck)?;
    put_word(alloc, Operation::End, deck)
}

// The lines of parts, behind a deck.
#[cycle(writing)]
fn put_parts<A: Allocator>(
    alloc: Global,
    parts: &Vec<Tree<A>, A>,
    deck: &mut Vec<Joined>,
) -> Result<(), AllocError>
    ensures { OnOk result
        (deck.new.items ≡ deck.old.items ++ meaning.written_in (plain_parts (parts_of parts.now.items))) }
{
    for part in parts {
        put_tree(alloc, part, deck)?;
    }
    Ok(())
}

/// The statements of a change deck that writes this tree, none of which stands at a line yet: one
/// for each leaf, with ADD, DELETE or MODIFY in the name field, and ROW, GROUP or CHOOSE before and
/// END behind the statements of parts. Operands stand in the canonical form; a deleted image is
/// `(*,digit)`, a deleted limit `0`, a deleted device `(number,1)`. What comes along with an edit
/// isn't written. It calls itself as deep as the tree is.
///
/// `AllocError` (M1): memory ran out.
pub fn write_tree<A: Allocator>(alloc: Global, tree: &Tree<A>) -> Result<Vec<Joined>, AllocError>
    ensures { IfOk result (λ deck. deck.items ≡ meaning.written (plain_tree (tree_of tree.now))) }
{
    let mut deck = Vec::new(alloc);
    put_tree(alloc, tree, &mut deck)?;
    Ok(deck)
}
