ghost use Rattle.std.specs.Prelude.{◌≡◌, ◌++◌, IfOk, OnOk, Some};
ghost use Rattle.iocm_impact_text.specs.RowText as meaning;

use iocm_plan::Effect;
use iocm_types::{Chpid, Mask, Text, View};
use iocm_words::put_joined;
use std::alloc::{AllocError, Global};

/// Puts what is seen before behind a text, and what is seen after if that is another view.
pub(crate) fn put_sides(
    text: &mut Vec<u8>,
    alloc: Global,
    effect: &Effect,
) -> Result<(), AllocError>
    ensures { OnOk result (text.new.items ≡ text.old.items ++ meaning.sides_text effect.now) }
{
    put_view(text, alloc, &effect.before)?;
    put_arrow(text, effect)?;
    put_after(text, alloc, effect)?;
    Ok(())
}

fn put_arrow(text: &mut Vec<u8>, effect: &Effect) -> Result<(), AllocError>
    ensures { OnOk result (text.new.items ≡ text.old.items ++ meaning.arrow_text effect.now) }
{
    if effect.is_changed() {
        text.extend_from_slice(b" -> ")?;
    }
    Ok(())
}

fn put_after(text: &mut Vec<u8>, alloc: Global, effect: &Effect) -> Result<(), AllocError>
    ensures { OnOk result (text.new.items ≡ text.old.items ++ meaning.after_text effect.now) }
{
    if effect.is_same() {
        return Ok(());
    }
    put_view(text, alloc, &effect.after)?;
    Ok(())
}

/// Puts a view behind a text, if it is there, as `60 (61) [62]`.
fn put_view(text: &mut Vec<u8>, alloc: Global, view: &Option<View>) -> Result<(), AllocError>
    ensures { OnOk result (text.new.items ≡ text.old.items ++ meaning.view_text view.now) }
{
    if let Some(view) = view {
        put_paths(text, alloc, view)?;
    }
    Ok(())
}

fn put_paths(text: &mut Vec<u8>, alloc: Global, view: &View) -> Result<(), AllocError>
    ensures { OnOk result (text.new.items ≡ text.old.items ++ meaning.view_text (Some view.now)) }
{
    let words = path_texts(alloc, view)?;
    put_joined(text, &words, b' ')?;
    Ok(())
}

/// The paths of a view, the first with the leftmost bit of the masks.
fn path_texts(alloc: Global, view: &View) -> Result<Vec<Text>, AllocError>
    ensures { IfOk result (λ texts. texts.items ≡ meaning.path_texts view.now 128 view.now.paths) }
{
    let mut bit = 128;
    let mut texts = Vec::new(alloc);
    for path in view.paths.as_slice() {
        texts.push(path_text(alloc, view, bit, *path)?)?;
        bit /= 2;
    }
    Ok(texts)
}

/// A path of a view, whose bit in the masks this is.
fn path_text(alloc: Global, view: &View, bit: u8, path: Chpid) -> Result<Text, AllocError>
    ensures { IfOk result (λ text. text ≡ meaning.path_text view.now bit path) }
{
    let text = if has_bit(view.pam, bit) {
        format!(in alloc; "{path}")?
    } else if has_bit(view.pim, bit) {
        format!(in alloc; "({path})")?
    } else {
        format!(in alloc; "[{path}]")?
    };
    Ok(Text::from_vec(text.into_bytes()))
}

fn has_bit(mask: Mask, bit: u8) -> bool
    ensures { result ≡ meaning.has_bit mask bit }
{
    mask.bits() & bit != 0
}
