ghost use Rattle.std.specs.Prelude.{◌≡◌, map, IfOk};
ghost use Rattle.iocm_types.specs.Print.{hex4};
ghost use Rattle.iocm_objects.specs.Values as meaning;

use crate::field::Value;
use crate::path_texts::paths_text;
use iocm_types::{Name, PathKind, Text, UnitNo};
use iocm_words::{names_word, units_word};
use std::alloc::{AllocError, Global};

/// A value as it is printed: an empty list is `none`, and that of a device's candidates `0`.
///
/// `AllocError` (M1): memory ran out.
pub fn value_text(alloc: Global, value: &Value) -> Result<Text, AllocError>
    ensures { IfOk result (λ text. text ≡ meaning.value_text value.now) }
{
    match value {
        Value::Text(text) => text.copy_in(alloc),
        Value::Use(kind) => use_text(alloc, *kind),
        Value::Names(names) => names_or(alloc, b"none", names.as_slice()),
        Value::Access(names) => names_or(alloc, b"none", names.as_slice()),
        Value::AccessOnline(names) => names_or(alloc, b"none", names.as_slice()),
        Value::Candidates(names) => names_or(alloc, b"0", names.as_slice()),
        Value::Units(units) => units_text(alloc, units.as_slice()),
        Value::Paths(paths) => paths_text(alloc, paths.as_slice()),
        Value::Address(address) => {
            let address = *address;
            let text = format!(in alloc; "{address:02X}")?;
            Ok(Text::from_vec(text.into_bytes()))
        }
    }
}

/// How images use a path.
pub(crate) fn use_text(alloc: Global, kind: PathKind) -> Result<Text, AllocError>
    ensures { IfOk result (λ text. text ≡ meaning.use_text kind) }
{
    match kind {
        PathKind::Dedicated => Text::from_slice(alloc, b"DEDICATED"),
        PathKind::Shared => Text::from_slice(alloc, b"SHARED"),
        PathKind::Reconfigurable => Text::from_slice(alloc, b"REC"),
    }
}

/// Names with commas between them, or a word where there are none.
fn names_or(alloc: Global, none: &[u8], names: &[Name]) -> Result<Text, AllocError>
    ensures { IfOk result (λ text. text ≡ meaning.items_or none.now names.now) }
{
    if names.is_empty() {
        return Text::from_slice(alloc, none);
    }
    Ok(Text::from_vec(names_word(alloc, names)?))
}

/// Control units with commas between them, or `none`.
fn units_text(alloc: Global, units: &[UnitNo]) -> Result<Text, AllocError>
    ensures { IfOk result (λ text. text ≡ meaning.items_or meaning.none (map hex4 units.now)) }
{
    if units.is_empty() {
        return Text::from_slice(alloc, b"none");
    }
    Ok(Text::from_vec(units_word(alloc, units)?))
}

/// What stands for a field of this kind that isn't there: `all` for the candidates of a device, else `none`.
pub(crate) fn absent_text(value: &Value) -> &'static [u8]
    ensures { result.now ≡ meaning.absent_text value.now }
{
    match value {
        Value::Candidates(_) => b"all",
        _ => b"none",
    }
}
