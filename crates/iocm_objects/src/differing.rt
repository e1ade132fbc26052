ghost use Rattle.std.specs.Prelude.{◌≡◌, ◌++◌, IfOk, OnOk};
ghost use Rattle.std.specs.Option.{option_copied};
ghost use Rattle.iocm_objects.specs.Differing as meaning;

use crate::field::Value;
use crate::value_texts::value_text;
use iocm_types::{List, Name, Text};
use std::alloc::{AllocError, Global};

/// What is told of a field with one value before and another after.
pub(crate) fn change_text(
    alloc: Global,
    name: &Text,
    old: &Value,
    new: &Value,
) -> Result<Text, AllocError>
    ensures { IfOk result (λ text. text ≡ meaning.change_text name.now old.now new.now) }
{
    match (listed(old), listed(new)) {
        (Some(names), Some(others)) => {
            let went = without(alloc, others.as_slice(), names.as_slice())?;
            let came = without(alloc, names.as_slice(), others.as_slice())?;
            went_and_came(alloc, name.as_slice(), &went, &came)
        }
        _ => {
            let before = value_text(alloc, old)?;
            let after = value_text(alloc, new)?;
            arrow_text(alloc, name.as_slice(), before.as_slice(), after.as_slice())
        }
    }
}

/// The names of a value of which is told what went and came, if it has such.
fn listed(value: &Value) -> Option<&List<Name>>
    ensures { option_copied result ≡ meaning.listed value.entry.now }
{
    match value {
        Value::Names(names) => Some(names),
        Value::Access(names) => Some(names),
        Value::AccessOnline(names) => Some(names),
        Value::Candidates(names) => {
            if names.as_slice().is_empty() {
                None
            } else {
                Some(names)
            }
        }
        _ => None,
    }
}

/// A name, and what stands before and after with an arrow between.
pub(crate) fn arrow_text(
    alloc: Global,
    name: &[u8],
    old: &[u8],
    new: &[u8],
) -> Result<Text, AllocError>
    ensures { IfOk result (λ text. text ≡ meaning.arrow name.now old.now new.now) }
{
    let mut text = Vec::from_slice(alloc, name)?;
    text.push(b' ')?;
    text.extend_from_slice(old)?;
    text.extend_from_slice(b" -> ")?;
    text.extend_from_slice(new)?;
    Ok(Text::from_vec(text))
}

/// A name, then what went with minus signs, and what came with plus signs.
pub(crate) fn went_and_came(
    alloc: Global,
    name: &[u8],
    went: &[Text],
    came: &[Text],
) -> Result<Text, AllocError>
    ensures { IfOk result (λ text. text ≡ meaning.went_and_came name.now went.now came.now) }
{
    let mut text = Vec::from_slice(alloc, name)?;
    put_signed(&mut text, b'-', went)?;
    put_signed(&mut text, b'+', came)?;
    Ok(Text::from_vec(text))
}

/// Puts items behind a text, each with a blank and a sign before it.
fn put_signed(text: &mut Vec<u8>, sign: u8, items: &[Text]) -> Result<(), AllocError>
    ensures { OnOk result (text.new.items ≡ text.old.items ++ meaning.signed sign items.now) }
{
    for item in items {
        text.push(b' ')?;
        text.push(sign)?;
        text.extend_from_slice(item.as_slice())?;
    }
    Ok(())
}

/// The names that aren't among others.
fn without(alloc: Global, others: &[Name], names: &[Name]) -> Result<Vec<Text>, AllocError>
    ensures { IfOk result (λ texts. texts.items ≡ meaning.without others.now names.now) }
{
    let mut texts = Vec::new(alloc);
    for name in names {
        if has_name(others, name) {
            continue;
        }
        texts.push(Text::from_slice(alloc, name.as_bytes())?)?;
    }
    Ok(texts)
}

fn has_name(names: &[Name], name: &Name) -> bool
    ensures { result ≡ meaning.has_name names.now name.now }
{
    names.iter().any(|other| *other == *name)
}
