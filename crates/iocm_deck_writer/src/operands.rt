ghost use Rattle.std.specs.Prelude.{◌≡◌, ◌++◌, ◌∷◌, [], IfOk, OnOk};
ghost use Rattle.iocm_deck_writer.specs.Statement as meaning;

use iocm_record::Carried;
use iocm_types::Text;
use std::alloc::{AllocError, Allocator, Global};

/// Puts an operand with its keyword behind the others, if it has a value.
pub fn put_valued(
    alloc: Global,
    operands: &mut Vec<Carried>,
    keyword: &[u8],
    text: Option<Text>,
) -> Result<(), AllocError>
    ensures { OnOk result (operands.new.items ≡ operands.old.items ++ meaning.valued keyword.now text) }
{
    let Some(text) = text else {
        return Ok(());
    };
    let keyword = Text::from_slice(alloc, keyword)?;
    operands.push(Carried::new(Some(keyword), text))?;
    Ok(())
}

/// Puts a word alone behind the other operands.
pub fn put_alone(alloc: Global, operands: &mut Vec<Carried>, word: &[u8]) -> Result<(), AllocError>
    ensures { OnOk result (operands.new.items ≡ operands.old.items ++ meaning.alone word.now ∷ []) }
{
    operands.push(Carried::new(None, Text::from_slice(alloc, word)?))?;
    Ok(())
}

/// Puts what a statement carries behind its known operands.
pub fn put_carried<A: Allocator>(
    alloc: Global,
    operands: &mut Vec<Carried>,
    carried: &[Carried<A>],
) -> Result<(), AllocError>
    ensures { OnOk result (operands.new.items ≡ operands.old.items ++ carried.now) }
{
    for operand in carried {
        operands.push(operand.copy_in(alloc)?)?;
    }
    Ok(())
}
