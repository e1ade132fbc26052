ghost use Rattle.std.specs.Prelude.{◌≡◌, ◌++◌, filter, IfOk, OnOk};
ghost use Rattle.std.specs.List.{flat_map, list_any};
ghost use Rattle.std.specs.Str.{bytes_eq};
ghost use Rattle.iocm_objects.specs.Lines.{told_item};
ghost use Rattle.iocm_offon_text.specs.Fields as meaning;

use crate::kind::{Kind, is_unit};
use iocm_objects::{Told, told_text};
use iocm_types::Text;
use std::alloc::{AllocError, Global};

/// The fields of so many objects from one on that lead to devices, with two blanks behind each; if none does, the record
/// is written otherwise.
///
/// `AllocError` (M1): memory ran out.
pub(crate) fn fields_text(
    alloc: Global,
    kind: &Kind,
    is_over: bool,
    count: u32,
    told: &[Told],
) -> Result<Text, AllocError>
    ensures { IfOk result (λ text. text ≡ meaning.fields_text kind.now is_over count told.now) }
{
    let mut text = Vec::new(alloc);
    put_fields(&mut text, alloc, kind, is_over, count, told)?;
    Ok(Text::from_vec(text))
}

/// Puts them behind a text.
fn put_fields(
    text: &mut Vec<u8>,
    alloc: Global,
    kind: &Kind,
    is_over: bool,
    count: u32,
    told: &[Told],
) -> Result<(), AllocError>
    ensures { OnOk result (text.new.items
        ≡ text.old.items ++ meaning.fields_text kind.now is_over count told.now) }
{
    if any_leads(kind, is_over, told) {
        put_leading(text, alloc, kind, is_over, count, told)?;
        return Ok(());
    }
    text.extend_from_slice(b"written otherwise")?;
    Ok(())
}

/// Whether some field leads to devices.
fn any_leads(kind: &Kind, is_over: bool, told: &[Told]) -> bool
    ensures { result ≡ list_any (meaning.leads kind.now is_over) told.now }
{
    told.iter().any(|field| leads(kind, is_over, field))
}

/// Puts the fields that lead to devices behind a text, with two blanks behind each.
fn put_leading(
    text: &mut Vec<u8>,
    alloc: Global,
    kind: &Kind,
    is_over: bool,
    count: u32,
    told: &[Told],
) -> Result<(), AllocError>
    ensures { OnOk result (text.new.items
        ≡ text.old.items ++ flat_map (told_item count) (filter (meaning.leads kind.now is_over) told.now)) }
{
    for field in told {
        if !leads(kind, is_over, field) {
            continue;
        }
        put_field(text, alloc, count, field)?;
    }
    Ok(())
}

/// Puts a field behind a text, with two blanks behind it.
fn put_field(text: &mut Vec<u8>, alloc: Global, count: u32, field: &Told) -> Result<(), AllocError>
    ensures { OnOk result (text.new.items ≡ text.old.items ++ told_item count field.now) }
{
    let told = told_text(alloc, count, field)?;
    text.extend_from_slice(told.as_slice())?;
    text.extend_from_slice(b"  ")?;
    Ok(())
}

/// Whether a field of an object of this kind leads to devices; `is_over`: some path leads over another control unit.
fn leads(kind: &Kind, is_over: bool, told: &Told) -> bool
    ensures { result ≡ meaning.leads kind.now is_over told.now }
{
    match told {
        Told::Words(name, text) => words_lead(kind, is_over, name.as_slice(), text.as_slice()),
        _ => true,
    }
}

fn words_lead(kind: &Kind, is_over: bool, name: &[u8], text: &[u8]) -> bool
    ensures { result ≡ meaning.words_lead kind.now is_over name.now text.now }
{
    !is_of_users(name)
        && !is_other_word(name, text)
        && (!is_unit(kind) || leads_unit(is_over, name))
}

/// Whether a field tells who is online, or may be.
fn is_of_users(name: &[u8]) -> bool
    ensures { result ≡ meaning.is_of_users name.now }
{
    is_word(name, b"online")
        || is_word(name, b"candidates")
        || is_word(name, b"access")
        || is_word(name, b"PARTITION")
}

/// Whether a field is told of the same CUADD, 00, or the same link, none, in another word.
fn is_other_word(name: &[u8], text: &[u8]) -> bool
    ensures { result ≡ meaning.is_other_word name.now text.now }
{
    is_word(text, b"CUADD 00 -> none")
        || is_word(text, b"CUADD none -> 00")
        || is_word(name, b"LINK")
            && (ends_with(text, b" ** -> none") || ends_with(text, b" none -> **"))
}

fn ends_with(text: &[u8], end: &[u8]) -> bool
    ensures { result ≡ meaning.ends_with text.now end.now }
{
    let start = text.len().saturating_sub(end.len());
    is_word(&text[start..], end)
}

fn is_word(text: &[u8], word: &[u8]) -> bool
    ensures { result ≡ bytes_eq text.now word.now }
{
    text == word
}

/// Whether a field of a control unit leads to devices.
fn leads_unit(is_over: bool, name: &[u8]) -> bool
    ensures { result ≡ meaning.leads_unit is_over name.now }
{
    !is_word(name, b"UNITADD") && (is_over || !is_word(name, b"PATH"))
}
