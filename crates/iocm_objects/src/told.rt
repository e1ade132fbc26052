ghost use Rattle.std.specs.Prelude.{◌≡◌, ◌++◌, ◌∷◌, [], IfOk, OnOk};
ghost use Rattle.std.specs.List.{flat_map};
ghost use Rattle.std.specs.Option.{option_copied};
ghost use Rattle.iocm_objects.specs.Told as meaning;
ghost use Rattle.iocm_objects.specs.ToldPaths.{words};

use crate::differing::{arrow_text, change_text};
use crate::field::{Field, Value};
use crate::object::Change;
use crate::told_paths::put_paths;
use crate::value_texts::{absent_text, use_text, value_text};
use iocm_types::{List, Text};
use std::alloc::{AllocError, Global};

/// A field as it is told.
#[derive(Drop)]
pub enum Told {
    /// The field's name (`LINK` for links of paths that stay), and its text.
    Words(Text, Text),
    /// The unit address of a device that is added or deleted.
    Address(u8),
    /// The unit addresses of a device, before and after.
    OtherAddress(u8, u8),
}

/// What is told of an object with these fields before and after: all fields if it is added or deleted; if it is changed
/// those that differ, first the fields of before, then those that came. The time of a list of names is that of its
/// length before and after, multiplied.
///
/// `AllocError` (M1): memory ran out.
pub fn told_of(
    alloc: Global,
    change: Change,
    before: &[Field],
    after: &[Field],
) -> Result<List<Told>, AllocError>
    ensures { IfOk result (λ told. told ≡ meaning.told_of change before.now after.now) }
{
    let mut told = Vec::new(alloc);
    match change {
        Change::Added => put_all_alone(&mut told, alloc, after)?,
        Change::Deleted => put_all_alone(&mut told, alloc, before)?,
        Change::Changed => {
            put_all_kept(&mut told, alloc, before, after)?;
            put_all_new(&mut told, alloc, before, after)?;
        }
    }
    Ok(List::from_vec(told))
}

/// Puts the fields of an object that is added or deleted behind others.
fn put_all_alone(told: &mut Vec<Told>, alloc: Global, fields: &[Field]) -> Result<(), AllocError>
    ensures { OnOk result (told.new.items ≡ told.old.items ++ flat_map meaning.told_alone fields.now) }
{
    for field in fields {
        put_alone(told, alloc, &field.name, &field.value)?;
    }
    Ok(())
}

/// Puts a field of an object that is added or deleted behind others.
fn put_alone(
    told: &mut Vec<Told>,
    alloc: Global,
    name: &Text,
    value: &Value,
) -> Result<(), AllocError>
    ensures { OnOk result (told.new.items ≡ told.old.items ++ meaning.alone_value name.now value.now) }
{
    match value {
        Value::Use(kind) => {
            let text = use_text(alloc, *kind)?;
            put_words(told, alloc, name.as_slice(), text)
        }
        Value::AccessOnline(_) => Ok(()),
        Value::Address(address) => {
            told.push(Told::Address(*address))?;
            Ok(())
        }
        _ => {
            let text = named_text(alloc, name, value)?;
            put_words(told, alloc, name.as_slice(), text)
        }
    }
}

/// A field alone: its name, a blank, and its value.
fn named_text(alloc: Global, name: &Text, value: &Value) -> Result<Text, AllocError>
    ensures { IfOk result (λ text. text ≡ meaning.named name.now value.now) }
{
    let value = value_text(alloc, value)?;
    let mut text = Vec::from_slice(alloc, name.as_slice())?;
    text.push(b' ')?;
    text.extend_from_slice(value.as_slice())?;
    Ok(Text::from_vec(text))
}

/// Puts a field that is told in words behind others.
pub(crate) fn put_words(
    told: &mut Vec<Told>,
    alloc: Global,
    name: &[u8],
    text: Text,
) -> Result<(), AllocError>
    ensures { OnOk result (told.new.items ≡ told.old.items ++ words name.now text ∷ []) }
{
    let name = Text::from_slice(alloc, name)?;
    told.push(Told::Words(name, text))?;
    Ok(())
}

/// Puts the fields of before that differ behind others.
fn put_all_kept(
    told: &mut Vec<Told>,
    alloc: Global,
    before: &[Field],
    after: &[Field],
) -> Result<(), AllocError>
    ensures { OnOk result (told.new.items
        ≡ told.old.items ++ flat_map (meaning.told_kept after.now) before.now) }
{
    for field in before {
        put_kept(told, alloc, &field.name, &field.value, after)?;
    }
    Ok(())
}

/// Puts a field of before behind others, if it differs.
fn put_kept(
    told: &mut Vec<Told>,
    alloc: Global,
    name: &Text,
    value: &Value,
    after: &[Field],
) -> Result<(), AllocError>
    ensures { OnOk result (told.new.items
        ≡ told.old.items ++ meaning.told_if name.now value.now (meaning.value_under name.now after.now)) }
{
    match value_under(name, after) {
        Some(other) => put_between(told, alloc, name, value, other),
        None => {
            let old = value_text(alloc, value)?;
            let text = arrow_text(alloc, name.as_slice(), old.as_slice(), absent_text(value))?;
            put_words(told, alloc, name.as_slice(), text)
        }
    }
}

/// Puts the fields that came behind others.
fn put_all_new(
    told: &mut Vec<Told>,
    alloc: Global,
    before: &[Field],
    after: &[Field],
) -> Result<(), AllocError>
    ensures { OnOk result (told.new.items
        ≡ told.old.items ++ flat_map (meaning.told_new before.now) after.now) }
{
    for field in after {
        put_new(told, alloc, &field.name, &field.value, before)?;
    }
    Ok(())
}

/// Puts a field of after behind others, if it wasn't there before.
fn put_new(
    told: &mut Vec<Told>,
    alloc: Global,
    name: &Text,
    value: &Value,
    before: &[Field],
) -> Result<(), AllocError>
    ensures { OnOk result (told.new.items ≡ told.old.items ++ meaning.new_value before.now name.now value.now) }
{
    if value_under(name, before).is_some() {
        return Ok(());
    }
    let new = value_text(alloc, value)?;
    let text = arrow_text(alloc, name.as_slice(), absent_text(value), new.as_slice())?;
    put_words(told, alloc, name.as_slice(), text)
}

/// The value of the first field of a name, if there is one.
fn value_under<'a>(name: &Text, fields: &'a [Field]) -> Option<&'a Value>
    ensures { option_copied result ≡ meaning.value_under name.entry.now fields.entry.now }
{
    for field in fields {
        if field.name == *name {
            return Some(&field.value);
        }
    }
    None
}

/// Puts a field that is there before and after behind others, if it differs.
fn put_between(
    told: &mut Vec<Told>,
    alloc: Global,
    name: &Text,
    old: &Value,
    new: &Value,
) -> Result<(), AllocError>
    ensures { OnOk result (told.new.items ≡ told.old.items ++ meaning.told_between name.now old.now new.now) }
{
    match (old, new) {
        (Value::Paths(old), Value::Paths(new)) => {
            put_paths(told, alloc, old.as_slice(), new.as_slice())
        }
        (Value::AccessOnline(_), Value::AccessOnline(_)) => Ok(()),
        (Value::Address(old), Value::Address(new)) => put_address(told, *old, *new),
        _ => put_differing(told, alloc, name, old, new),
    }
}

/// Puts the unit addresses of a device behind others, if they differ.
fn put_address(told: &mut Vec<Told>, old: u8, new: u8) -> Result<(), AllocError>
    ensures { OnOk result (told.new.items ≡ told.old.items ++ meaning.told_addresses old new) }
{
    if old == new {
        return Ok(());
    }
    told.push(Told::OtherAddress(old, new))?;
    Ok(())
}

/// Puts a field behind others, if its values are printed in other ways.
fn put_differing(
    told: &mut Vec<Told>,
    alloc: Global,
    name: &Text,
    old: &Value,
    new: &Value,
) -> Result<(), AllocError>
    ensures { OnOk result (told.new.items ≡ told.old.items ++ meaning.differing name.now old.now new.now) }
{
    let before = value_text(alloc, old)?;
    let after = value_text(alloc, new)?;
    if before == after {
        return Ok(());
    }
    let text = change_text(alloc, name, old, new)?;
    put_words(told, alloc, name.as_slice(), text)
}
