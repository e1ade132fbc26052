ghost use Rattle.std.specs.Prelude.{◌≡◌, ◌++◌, IfOk, OnOk};
ghost use Rattle.iocm_tree.specs.Trees.{parts_of, plain_parts, plain_tree, tree_of};
ghost use Rattle.iocm_reports.specs.WayBack as meaning;

use crate::memory::Allocated;
use crate::remarks::put_remarks;
use iocm_columns::deck_bytes;
use iocm_lines::Form;
use iocm_record_lines::put_undo_line;
use iocm_tree::{Edit, Tree};
use iocm_tree_writer::write_tree;
use std::alloc::{Allocator, Global};

// What is told of a tree, behind a text.
#[cycle(remarks)]
fn put_tree<A: Allocator>(
    alloc: Global,
    form: Form,
    tree: &Tree<A>,
    text: &mut Vec<u8>,
) -> Allocated<()>
    ensures { OnOk result (text.new.items ≡ text.old.items ++ meaning.told_in form (plain_tree (tree_of tree.now))) }
{
    match tree {
        Tree::Leaf(edit) => put_told(alloc, form, edit, text),
        Tree::Row(parts) | Tree::Group(parts) | Tree::Choose(parts) => {
            put_parts(alloc, form, parts, text)
        }
    }
}

// What is told of parts, behind a text.
#[cycle(remarks)]
fn put_parts<A: Allocator>(
    alloc: Global,
    form: Form,
    parts: &Vec<Tree<A>, A>,
    text: &mut Vec<u8>,
) -> Allocated<()>
    ensures { OnOk result
        (text.new.items ≡ text.old.items ++ meaning.told_among form (plain_parts (parts_of parts.now.items))) }
{
    for part in parts {
        put_tree(alloc, form, part, text)?;
    }
    Ok(())
}

/// What is told of an edit, behind a text.
#[tactic(auto, unfolding(crate::specs::WayBack::told_of))]
fn put_told<A: Allocator>(
    alloc: Global,
    form: Form,
    edit: &Edit<A>,
    text: &mut Vec<u8>,
) -> Allocated<()>
    ensures { OnOk result (text.new.items ≡ text.old.items ++ meaning.told_of form edit.now.edit) }
{
    match form {
        Form::Text => put_remarks(alloc, edit, text),
        Form::Json => put_undo_line(alloc, text, edit),
    }
}

/// The change deck of a tree that takes a change back. Behind its statements stands, in comments,
/// what comes along with its edits and no statement says: the subchannel numbers that devices had,
/// and what subchannels remembered. As lines of JSON it is a line for each edit, with what comes along.
/// It calls itself as deep as the tree is.
///
/// `AllocError` (M1): memory ran out.
pub fn way_back<A: Allocator>(alloc: Global, form: Form, tree: &Tree<A>) -> Allocated<Vec<u8>>
    ensures { IfOk result (λ bytes. bytes.items ≡ meaning.way_back_in form (plain_tree (tree_of tree.now))) }
{
    let mut text = statements(alloc, form, tree)?;
    put_tree(alloc, form, tree, &mut text)?;
    Ok(text)
}

/// The statements of a tree, if the form has them.
fn statements<A: Allocator>(alloc: Global, form: Form, tree: &Tree<A>) -> Allocated<Vec<u8>>
    ensures { IfOk result (λ text. text.items ≡ meaning.statements_in form (plain_tree (tree_of tree.now))) }
{
    match form {
        Form::Text => {
            let deck = write_tree(alloc, tree)?;
            deck_bytes(alloc, &deck)
        }
        Form::Json => Ok(Vec::new(alloc)),
    }
}
