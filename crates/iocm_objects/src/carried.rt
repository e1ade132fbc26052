ghost use Rattle.std.specs.Prelude.{◌≡◌, ◌++◌, ◌∷◌, [], IfOk, OnOk};
ghost use Rattle.std.specs.Option.{option_copied};
ghost use Rattle.iocm_objects.specs.Carried as meaning;

use crate::field::{Field, Value};
use iocm_record::Carried;
use iocm_types::Text;
use iocm_values::comma_text;
use std::alloc::{AllocError, Global};

/// Puts a field behind others.
pub(crate) fn put_field(
    fields: &mut Vec<Field>,
    alloc: Global,
    name: &[u8],
    value: Value,
) -> Result<(), AllocError>
    ensures { OnOk result (fields.new.items ≡ fields.old.items ++ meaning.field name.now value ∷ []) }
{
    let name = Text::from_slice(alloc, name)?;
    fields.push(Field { name, value })?;
    Ok(())
}

/// Puts the fields of what a statement carries along behind others.
pub(crate) fn put_carried(
    fields: &mut Vec<Field>,
    alloc: Global,
    carried: &[Carried],
) -> Result<(), AllocError>
    ensures { OnOk result (fields.new.items ≡ fields.old.items ++ meaning.carried_fields carried.now) }
{
    let text = bare_words(alloc, carried)?;
    let mut words = Some(&text);
    for operand in carried {
        put_operand(fields, alloc, words, operand)?;
        if is_bare(operand) {
            words = None;
        }
    }
    Ok(())
}

/// Puts the field of an operand behind others: that of a bare one is all bare words, if these aren't told yet.
fn put_operand(
    fields: &mut Vec<Field>,
    alloc: Global,
    words: Option<&Text>,
    operand: &Carried,
) -> Result<(), AllocError>
    ensures { OnOk result (fields.new.items
        ≡ fields.old.items ++ meaning.operand_fields (option_copied words.entry) operand.now) }
{
    match (operand.keyword(), words) {
        (Some(keyword), _) => {
            let text = operand.text().copy_in(alloc)?;
            put_field(fields, alloc, keyword.as_slice(), Value::Text(text))
        }
        (None, Some(words)) => {
            let text = words.copy_in(alloc)?;
            put_field(fields, alloc, b"words", Value::Text(text))
        }
        (None, None) => Ok(()),
    }
}

/// The bare words of a statement, with commas between them.
fn bare_words(alloc: Global, carried: &[Carried]) -> Result<Text, AllocError>
    ensures { IfOk result (λ text. text ≡ meaning.bare_words carried.now) }
{
    let mut words = Vec::new(alloc);
    for operand in carried {
        if !is_bare(operand) {
            continue;
        }
        words.push(operand.text().copy_in(alloc)?)?;
    }
    comma_text(alloc, &words)
}

/// Whether an operand has no keyword.
fn is_bare(operand: &Carried) -> bool
    ensures { result ≡ meaning.is_bare operand.now }
{
    operand.keyword().is_none()
}
