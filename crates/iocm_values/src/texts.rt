ghost use Rattle.std.specs.Prelude.{◌≡◌, ◌<◌, ◌++◌, ◌∷◌, IfOk, OnOk, IfSome};
ghost use Rattle.std.specs.List.{flat_map, join_with_byte};
ghost use Rattle.iocm_values.specs.Texts as meaning;

use iocm_types::{Css, Text};
use std::alloc::{AllocError, Global};
use std::fmt::Display;

/// An item of a list by channel subsystem, as it is written.
#[derive(Drop)]
pub struct CssText {
    /// The channel subsystem in whose group it stands.
    pub css: Css,
    /// The item.
    pub text: Text,
}

/// What a value prints. Answers the lack of memory alone.
pub fn printed<T: Display>(alloc: Global, value: &T) -> Result<Text, AllocError>
    ensures { IfOk result (λ text. IfSome (T.output value.now) (λ bytes. text ≡ bytes)) }
{
    let text = value.to_string(alloc)?;
    Ok(Text::from_vec(text.into_bytes()))
}

/// Puts bytes behind a text. Answers the lack of memory alone.
fn put(text: &mut Vec<u8>, bytes: &[u8]) -> Result<(), AllocError>
    ensures { OnOk result (text.new.items ≡ text.old.items ++ bytes.now) }
{
    text.extend_from_slice(bytes)?;
    Ok(())
}

/// Puts items behind a text, each with a comma before it.
fn put_behind_commas(text: &mut Vec<u8>, items: &[Text]) -> Result<(), AllocError>
    ensures { OnOk result (text.new.items ≡ text.old.items ++ flat_map (λ item. 44 ∷ item) items.now) }
{
    for item in items {
        text.push(b',')?;
        put(text, item.as_slice())?;
    }
    Ok(())
}

/// Puts items behind a text, with commas between them.
fn put_items(text: &mut Vec<u8>, items: &[Text]) -> Result<(), AllocError>
    ensures { OnOk result (text.new.items ≡ text.old.items ++ join_with_byte 44 items.now) }
{
    if items.is_empty() {
        return Ok(());
    }
    let (_, others) = items.split_at(1);
    put(text, items[0].as_slice())?;
    put_behind_commas(text, others)?;
    Ok(())
}

/// A list of items as it is written: in parentheses, with commas between them. Answers the lack of
/// memory alone.
pub fn list_text(alloc: Global, items: &[Text]) -> Result<Text, AllocError>
    ensures { IfOk result (λ text. text ≡ meaning.list_text items.now) }
{
    let mut text = Vec::new(alloc);
    text.push(b'(')?;
    put_items(&mut text, items)?;
    text.push(b')')?;
    Ok(Text::from_vec(text))
}

/// Items with commas between them. Answers the lack of memory alone.
pub fn comma_text(alloc: Global, items: &[Text]) -> Result<Text, AllocError>
    ensures { IfOk result (λ text. text ≡ join_with_byte 44 items.now) }
{
    let mut text = Vec::new(alloc);
    put_items(&mut text, items)?;
    Ok(Text::from_vec(text))
}

/// The word `CSS(n)`. Answers the lack of memory alone.
pub fn css_text(alloc: Global, css: Css) -> Result<Text, AllocError>
    ensures { IfOk result (λ text. text ≡ meaning.css_text css) }
{
    let text = format!(in alloc; "CSS({css})")?;
    Ok(Text::from_vec(text.into_bytes()))
}

/// The items of a channel subsystem, behind what was found.
fn put_texts_in(
    alloc: Global,
    items: &[CssText],
    css: Css,
    found: &mut Vec<Text>,
) -> Result<(), AllocError>
    ensures { OnOk result (found.new.items ≡ found.old.items ++ meaning.texts_in items.now css) }
{
    for item in items {
        if item.css != css {
            continue;
        }
        found.push(item.text.copy_in(alloc)?)?;
    }
    Ok(())
}

/// The group of a channel subsystem, `(CSS(n),..)`, if it has items, behind what was found.
fn put_group(
    alloc: Global,
    items: &[CssText],
    css: Css,
    found: &mut Vec<Text>,
) -> Result<(), AllocError>
    ensures { OnOk result (found.new.items ≡ found.old.items ++ meaning.group_texts items.now css) }
{
    let mut texts = vec![in alloc; css_text(alloc, css)?]?;
    put_texts_in(alloc, items, css, &mut texts)?;
    if texts.len() == 1 {
        return Ok(());
    }
    found.push(list_text(alloc, &texts)?)?;
    Ok(())
}

/// The channel subsystem of a number, 0 to 5.
pub fn subsystem(number: u8) -> Css
    requires { number < 6 }
    ensures { result ≡ number }
{
    match Css::new(number) {
        Some(css) => css,
        None => unreachable!(),
    }
}

/// A list by channel subsystem as it is written: in groups, with channel subsystems ascending, and
/// each one's items in their order. Answers the lack of memory alone.
pub fn by_css_text(alloc: Global, items: &[CssText]) -> Result<Text, AllocError>
    ensures { IfOk result (λ text. text ≡ meaning.by_css_text items.now) }
{
    let mut groups = Vec::new(alloc);
    for number in 0..6 {
        put_group(alloc, items, subsystem(number), &mut groups)?;
    }
    list_text(alloc, &groups)
}
