ghost use Rattle.std.specs.Prelude.{◌≡◌, map, IfOk};
ghost use Rattle.std.specs.List.{join_with_byte};
ghost use Rattle.iocm_deck_writer.specs.Canonical as meaning;

use crate::CanonicalStatement;
use iocm_columns::Joined;
use iocm_record::Carried;
use iocm_types::Text;
use iocm_values::comma_text;
use std::alloc::{AllocError, Global};

// An operand as it stands in the operand part.
fn operand_text(alloc: Global, operand: &Carried) -> Result<Text, AllocError>
    ensures { IfOk result (λ text. text ≡ meaning.operand_text operand.now) }
{
    let Some(keyword) = operand.keyword() else {
        return operand.text().copy_in(alloc);
    };
    let mut text = Vec::from_slice(alloc, keyword.as_slice())?;
    text.push(b'=')?;
    text.extend_from_slice(operand.text().as_slice())?;
    Ok(Text::from_vec(text))
}

// The operand part.
fn part_text(alloc: Global, operands: &[Carried]) -> Result<Text, AllocError>
    ensures { IfOk result (λ text. text ≡ join_with_byte 44 (map meaning.operand_text operands.now)) }
{
    let mut texts = Vec::new(alloc);
    for operand in operands {
        texts.push(operand_text(alloc, operand)?)?;
    }
    comma_text(alloc, &texts)
}

/// A statement that is to be written: its operation, and its operands with commas between them. It
/// has no name, and stands at no line yet. Answers the lack of memory alone.
pub fn to_write(alloc: Global, statement: &CanonicalStatement) -> Result<Joined, AllocError>
    ensures { IfOk result (λ joined. joined ≡ meaning.to_write statement.now) }
{
    Ok(Joined {
        line: 0,
        name: Text::new(alloc),
        operation: Text::from_slice(alloc, statement.operation().name())?,
        text: part_text(alloc, statement.operands())?,
    })
}
