ghost use Rattle.std.specs.Prelude.{◌≡◌, ◌++◌, OnOk};
ghost use Rattle.iocm_plan_text.specs.Summary as meaning;

use crate::counted::kind_text;
use iocm_impact_text::put_listed;
use iocm_objects::{Change, Object, ObjectKind, count_objects};
use iocm_types::Text;
use iocm_words::grouped_word;
use std::alloc::{AllocError, Global};

/// Puts the line that counts objects behind a text: how many are added, deleted and changed, by kind.
///
/// `AllocError` (M1): memory ran out.
pub(crate) fn put_summary(
    text: &mut Vec<u8>,
    alloc: Global,
    is_filtered: bool,
    objects: &[Object],
) -> Result<(), AllocError>
    ensures { OnOk result (text.new.items ≡ text.old.items ++ meaning.summary is_filtered objects.now) }
{
    put_first_part(text, alloc, is_filtered, objects)?;
    put_next_part(text, alloc, b", delete ", Change::Deleted, objects)?;
    put_next_part(text, alloc, b", change ", Change::Changed, objects)?;
    text.extend_from_slice(b".\n")?;
    Ok(())
}

/// Puts that nothing is told behind a text.
pub(crate) fn put_nothing(text: &mut Vec<u8>, is_filtered: bool) -> Result<(), AllocError>
    ensures { OnOk result (text.new.items ≡ text.old.items ++ meaning.nothing is_filtered) }
{
    let line: &[u8] = if is_filtered {
        b"Plan, as filtered: nothing.\n"
    } else {
        b"Plan: nothing differs.\n"
    };
    text.extend_from_slice(line)?;
    Ok(())
}

#[tactic(auto, unfolding(crate::specs::Summary::first_part))]
fn put_first_part(
    text: &mut Vec<u8>,
    alloc: Global,
    is_filtered: bool,
    objects: &[Object],
) -> Result<(), AllocError>
    ensures { OnOk result (text.new.items ≡ text.old.items ++ meaning.first_part is_filtered objects.now) }
{
    put_head(text, is_filtered)?;
    put_part(text, alloc, b"add ", Change::Added, objects)?;
    Ok(())
}

#[tactic(auto, unfolding(crate::specs::Summary::next_part))]
fn put_next_part(
    text: &mut Vec<u8>,
    alloc: Global,
    verb: &[u8],
    change: Change,
    objects: &[Object],
) -> Result<(), AllocError>
    ensures { OnOk result (text.new.items ≡ text.old.items ++ meaning.next_part verb.now change objects.now) }
{
    put_part(text, alloc, verb, change, objects)?;
    Ok(())
}

fn put_head(text: &mut Vec<u8>, is_filtered: bool) -> Result<(), AllocError>
    ensures { OnOk result (text.new.items ≡ text.old.items ++ meaning.head is_filtered) }
{
    let head: &[u8] = if is_filtered {
        b"Plan, as filtered: "
    } else {
        b"Plan: "
    };
    text.extend_from_slice(head)?;
    Ok(())
}

/// Puts a verb, how many objects this becomes of, and how many of each kind, behind a text.
#[tactic(auto, unfolding(crate::specs::Summary::part))]
fn put_part(
    text: &mut Vec<u8>,
    alloc: Global,
    verb: &[u8],
    change: Change,
    objects: &[Object],
) -> Result<(), AllocError>
    ensures { OnOk result (text.new.items ≡ text.old.items ++ meaning.part verb.now change objects.now) }
{
    text.extend_from_slice(verb)?;
    put_number(text, alloc, count_changes(change, objects))?;
    put_kinds(text, alloc, change, objects)?;
    Ok(())
}

/// How many objects this becomes of.
fn count_changes(change: Change, objects: &[Object]) -> usize
    ensures { result ≡ meaning.count_changes change objects.now }
{
    objects
        .iter()
        .filter(|object| object.change == change)
        .count()
}

/// Puts a count with commas behind a text.
pub(crate) fn put_number(text: &mut Vec<u8>, alloc: Global, count: usize) -> Result<(), AllocError>
    ensures { OnOk result (text.new.items ≡ text.old.items ++ meaning.number count) }
{
    let word = grouped_word(alloc, count as u64)?;
    text.extend_from_slice(&word)?;
    Ok(())
}

/// Puts how many objects of each kind there are behind a text, in brackets.
fn put_kinds(
    text: &mut Vec<u8>,
    alloc: Global,
    change: Change,
    objects: &[Object],
) -> Result<(), AllocError>
    ensures { OnOk result (text.new.items ≡ text.old.items ++ meaning.in_brackets (meaning.kinds change objects.now)) }
{
    let mut words = Vec::new(alloc);
    put_each_kind(&mut words, alloc, change, objects)?;
    put_in_brackets(text, &words)
}

/// Puts words behind a text, in brackets; nothing if there are none.
fn put_in_brackets(text: &mut Vec<u8>, words: &[Text]) -> Result<(), AllocError>
    ensures { OnOk result (text.new.items ≡ text.old.items ++ meaning.in_brackets words.now) }
{
    if words.is_empty() {
        return Ok(());
    }
    text.extend_from_slice(b" (")?;
    put_listed(text, words)?;
    text.extend_from_slice(b")")?;
    Ok(())
}

/// Puts how many objects of each kind there are behind other words, in the order of keys.
fn put_each_kind(
    words: &mut Vec<Text>,
    alloc: Global,
    change: Change,
    objects: &[Object],
) -> Result<(), AllocError>
    ensures { OnOk result (words.new.items ≡ words.old.items ++ meaning.kinds change objects.now) }
{
    put_statements(words, alloc, change, objects)?;
    put_kind(words, alloc, change, ObjectKind::Path, objects)?;
    put_kind(words, alloc, change, ObjectKind::Unit, objects)?;
    put_kind(words, alloc, change, ObjectKind::Device, objects)?;
    Ok(())
}

/// Puts how many objects of an ID and of RESOURCE there are behind other words.
fn put_statements(
    words: &mut Vec<Text>,
    alloc: Global,
    change: Change,
    objects: &[Object],
) -> Result<(), AllocError>
    ensures { OnOk result (words.new.items ≡ words.old.items ++ meaning.statements change objects.now) }
{
    put_kind(words, alloc, change, ObjectKind::Id, objects)?;
    put_kind(words, alloc, change, ObjectKind::Resource, objects)?;
    put_kind(words, alloc, change, ObjectKind::Image, objects)?;
    put_kind(words, alloc, change, ObjectKind::Limit, objects)?;
    Ok(())
}

/// Puts how many objects of a kind there are behind other words, if there are any.
fn put_kind(
    words: &mut Vec<Text>,
    alloc: Global,
    change: Change,
    kind: ObjectKind,
    objects: &[Object],
) -> Result<(), AllocError>
    ensures { OnOk result (words.new.items ≡ words.old.items ++ meaning.kind_if change kind objects.now) }
{
    let count = count_objects(objects, change, kind);
    if count > 0 {
        words.push(kind_text(alloc, kind, count)?)?;
    }
    Ok(())
}
