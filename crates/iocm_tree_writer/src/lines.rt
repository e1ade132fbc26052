ghost use Rattle.std.specs.Prelude.{◌≡◌, ◌++◌, ◌∷◌, [], IfOk, OnOk};
ghost use Rattle.iocm_tree_writer.specs.Leaves as leaves;
ghost use Rattle.iocm_tree_writer.specs.Written as meaning;

use crate::keys::key_statement;
use crate::records::record_statement;
use iocm_columns::Joined;
use iocm_deck_writer::{CanonicalStatement, to_write};
use iocm_statements::Operation;
use iocm_tree::{Edit, Verb};
use iocm_types::Text;
use std::alloc::{AllocError, Allocator, Global};

/// The word of a verb.
pub fn verb_name(verb: Verb) -> &'static [u8]
    ensures { result.now ≡ leaves.verb_name verb }
{
    match verb {
        Verb::Add => b"ADD",
        Verb::Delete => b"DELETE",
        Verb::Modify => b"MODIFY",
    }
}

// The statement of an edit: of the record that it leaves, or of its key where it leaves none.
fn edit_statement<A: Allocator>(
    alloc: Global,
    edit: &Edit<A>,
) -> Result<CanonicalStatement, AllocError>
    ensures { IfOk result (λ s. s ≡ leaves.action_statement edit.now.edit.action) }
{
    match edit.after() {
        Some(entry) => record_statement(alloc, entry),
        None => key_statement(alloc, edit.key()),
    }
}

fn edit_to_write<A: Allocator>(alloc: Global, edit: &Edit<A>) -> Result<Joined, AllocError>
    ensures { IfOk result (λ joined. joined ≡ meaning.line_to_write (meaning.action_line edit.now.edit.action)) }
{
    let statement = edit_statement(alloc, edit)?;
    let Joined {
        line,
        name: _,
        operation,
        text,
    } = to_write(alloc, &statement)?;
    Ok(Joined {
        line,
        name: Text::from_slice(alloc, verb_name(edit.verb()))?,
        operation,
        text,
    })
}

/// Puts the line of an edit behind a deck. Answers the lack of memory alone.
pub fn put_edit<A: Allocator>(
    alloc: Global,
    edit: &Edit<A>,
    deck: &mut Vec<Joined>,
) -> Result<(), AllocError>
    ensures { OnOk result (deck.new.items
        ≡ deck.old.items ++ meaning.line_to_write (meaning.action_line edit.now.edit.action) ∷ []) }
{
    deck.push(edit_to_write(alloc, edit)?)?;
    Ok(())
}

/// Puts the line of an operation alone behind a deck. Answers the lack of memory alone.
pub fn put_word(
    alloc: Global,
    operation: Operation,
    deck: &mut Vec<Joined>,
) -> Result<(), AllocError>
    ensures { OnOk result
        (deck.new.items ≡ deck.old.items ++ meaning.line_to_write (meaning.word_line operation) ∷ []) }
{
    deck.push(Joined {
        line: 0,
        name: Text::new(alloc),
        operation: Text::from_slice(alloc, operation.name())?,
        text: Text::new(alloc),
    })?;
    Ok(())
}
