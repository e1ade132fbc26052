ghost use Rattle.std.specs.Prelude.{◌≡◌, ◌++◌, IfOk, OnOk};
ghost use Rattle.iocm_impact_text.specs.RowText as meaning;

use crate::listed::put_listed;
use crate::run_text::put_run;
use crate::view_text::put_sides;
use iocm_impact::Row;
use iocm_plan::Effect;
use iocm_types::Text;
use std::alloc::{AllocError, Global};

/// Puts a row behind a text, as `~ 0B00-0B0F (16)      60 61 -> (60) 61  interrupted`.
///
/// `AllocError` (M1): memory ran out.
pub fn put_row(text: &mut Vec<u8>, alloc: Global, row: &Row) -> Result<(), AllocError>
    ensures { OnOk result (text.new.items ≡ text.old.items ++ meaning.row_text row.now) }
{
    text.push(sign_of(&row.effect))?;
    text.push(b' ')?;
    put_run(text, alloc, &row.run)?;
    text.push(b' ')?;
    put_sides(text, alloc, &row.effect)?;
    put_marks(text, alloc, &row.effect)?;
    Ok(())
}

/// The sign of a row: `-` for what goes, `+` for what comes, `~` for what changes, else `=`.
fn sign_of(effect: &Effect) -> u8
    ensures { result ≡ meaning.sign effect.now }
{
    if effect.is_gone() {
        return b'-';
    }
    if effect.has_come() {
        return b'+';
    }
    if effect.is_changed() { b'~' } else { b'=' }
}

/// Puts the marks of an effect behind a text, behind two blanks if there are any.
fn put_marks(text: &mut Vec<u8>, alloc: Global, effect: &Effect) -> Result<(), AllocError>
    ensures { OnOk result (text.new.items ≡ text.old.items ++ meaning.marks_text effect.now) }
{
    let words = mark_words(alloc, effect)?;
    put_marks_from(text, &words)?;
    Ok(())
}

fn put_marks_from(text: &mut Vec<u8>, words: &[Text]) -> Result<(), AllocError>
    ensures { OnOk result (text.new.items ≡ text.old.items ++ meaning.marks_from words.now) }
{
    if words.is_empty() {
        return Ok(());
    }
    text.extend_from_slice(b"  ")?;
    put_listed(text, words)?;
    Ok(())
}

/// The marks that a row tells.
fn mark_words(alloc: Global, effect: &Effect) -> Result<Vec<Text>, AllocError>
    ensures { IfOk result (λ words. words.items ≡ meaning.mark_words effect.now) }
{
    let mut words = Vec::new(alloc);
    put_if(&mut words, alloc, effect.is_lost(), b"lost")?;
    put_if(&mut words, alloc, effect.interrupted, b"interrupted")?;
    put_if(
        &mut words,
        alloc,
        effect.has_one_path_left(),
        b"one path left",
    )?;
    Ok(words)
}

fn put_if(words: &mut Vec<Text>, alloc: Global, holds: bool, word: &[u8]) -> Result<(), AllocError>
    ensures { OnOk result (words.new.items ≡ words.old.items ++ meaning.said_if holds word.now) }
{
    if holds {
        words.push(Text::from_slice(alloc, word)?)?;
    }
    Ok(())
}
