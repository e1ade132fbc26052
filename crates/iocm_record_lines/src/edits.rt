ghost use Rattle.std.specs.Prelude.{◌≡◌, ◌++◌, map, IfOk, OnOk};
ghost use Rattle.std.specs.Option.{option_copied};
ghost use Rattle.serde_json.specs.Written.{compact_text};
ghost use Rattle.iocm_tree.specs.Carried as trees;
ghost use Rattle.iocm_lines.specs.Lines as lines;
ghost use Rattle.iocm_record_lines.specs.Edits as meaning;

use crate::lines::put_key;
use crate::record::put_record;
use iocm_config::Config;
use iocm_record::Record;
use iocm_tree::{Edit, Verb};
use std::alloc::{AllocError, Allocator, Global};

/// A line for each of some edits that lead away from a configuration, each of another key: what is under
/// the key before it and after it. Answers the lack of memory alone.
pub fn edit_lines<A: Allocator, B: Allocator>(
    alloc: Global,
    config: &Config<A>,
    edits: &[Edit<B>],
) -> Result<Vec<u8>, AllocError>
    ensures { IfOk result (λ text. text.items
        ≡ meaning.edit_lines config.now.records (map (λ e. e.edit.action) edits.now)) }
{
    let mut text = Vec::new(alloc);
    for edit in edits {
        put_edit_line(alloc, &mut text, config, edit)?;
    }
    Ok(text)
}

/// Puts the line of an edit that leads away from a configuration.
#[tactic(auto, unfolding(crate::specs::Edits::edit_line))]
fn put_edit_line<A: Allocator, B: Allocator>(
    alloc: Global,
    text: &mut Vec<u8>,
    config: &Config<A>,
    edit: &Edit<B>,
) -> Result<(), AllocError>
    ensures { OnOk result (text.new.items ≡ text.old.items
        ++ meaning.edit_line config.now.records edit.now.edit.action) }
{
    let key = edit.key();
    put_edit(alloc, text, config.get(&key), edit)
}

/// Puts the line of an edit, with the record that was under its key before.
fn put_edit<A: Allocator, B: Allocator>(
    alloc: Global,
    text: &mut Vec<u8>,
    before: Option<&Record<A>>,
    edit: &Edit<B>,
) -> Result<(), AllocError>
    ensures { OnOk result (text.new.items ≡ text.old.items
        ++ lines.line (meaning.edit_value (option_copied before.entry) edit.now.edit.action)) }
{
    text.extend_from_slice(b"{\"after\":")?;
    put_any_record(alloc, text, edit.after())?;
    text.extend_from_slice(b",\"before\":")?;
    put_any_record(alloc, text, before)?;
    text.extend_from_slice(b",\"key\":")?;
    put_key(alloc, text, &edit.key())?;
    text.extend_from_slice(edit_end(edit.verb()))?;
    Ok(())
}

/// Puts a record that is there, or null.
pub(crate) fn put_any_record<A: Allocator>(
    alloc: Global,
    text: &mut Vec<u8>,
    entry: Option<&Record<A>>,
) -> Result<(), AllocError>
    ensures { OnOk result (text.new.items ≡ text.old.items
        ++ compact_text (meaning.any_record_value (option_copied entry.entry))) }
{
    match entry {
        Some(entry) => put_record(alloc, text, entry),
        None => {
            text.extend_from_slice(b"null")?;
            Ok(())
        }
    }
}

/// The part of the line of an edit from its key to the end.
pub(crate) fn edit_end(verb: Verb) -> &'static [u8]
    ensures { result.now ≡ meaning.edit_end verb }
{
    match verb {
        Verb::Add => b",\"type\":\"edit\",\"verb\":\"ADD\"}\n",
        Verb::Delete => b",\"type\":\"edit\",\"verb\":\"DELETE\"}\n",
        Verb::Modify => b",\"type\":\"edit\",\"verb\":\"MODIFY\"}\n",
    }
}
