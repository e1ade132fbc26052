ghost use Rattle.std.specs.Prelude.{◌≡◌, ◌++◌, codes, IfOk, OnOk};
ghost use Rattle.iocm_plan_text.specs.Counted as meaning;

use iocm_objects::ObjectKind;
use iocm_types::Text;
use iocm_words::grouped_word;
use std::alloc::{AllocError, Global};

/// How many objects of a kind there are, as `1 path` and `256 devices`. An ID and what RESOURCE carries along are
/// there once, and aren't counted.
///
/// `AllocError` (M1): memory ran out.
pub fn kind_text(alloc: Global, kind: ObjectKind, count: usize) -> Result<Text, AllocError>
    ensures { IfOk result (λ text. text ≡ meaning.kind_text kind count) }
{
    match kind {
        ObjectKind::Id => Text::from_slice(alloc, b"id"),
        ObjectKind::Resource => Text::from_slice(alloc, b"resource"),
        ObjectKind::Image => counted_text(alloc, count, b" image"),
        ObjectKind::Limit => counted_text(alloc, count, b" limit"),
        ObjectKind::Path => counted_text(alloc, count, b" path"),
        ObjectKind::Unit => counted_text(alloc, count, b" control unit"),
        ObjectKind::Device => counted_text(alloc, count, b" device"),
    }
}

/// A count with a word behind it, in the plural unless it is one.
fn counted_text(alloc: Global, count: usize, word: &[u8]) -> Result<Text, AllocError>
    ensures { IfOk result (λ text. text ≡ meaning.counted_text count word.now) }
{
    let mut text = grouped_word(alloc, count as u64)?;
    text.extend_from_slice(word)?;
    put_plural(&mut text, count)?;
    Ok(Text::from_vec(text))
}

/// Puts the letter of the plural behind a text, unless the count is one.
fn put_plural(text: &mut Vec<u8>, count: usize) -> Result<(), AllocError>
    ensures { OnOk result (text.new.items ≡ text.old.items ++ meaning.plural count) }
{
    if count != 1 {
        text.push(b's')?;
    }
    Ok(())
}
