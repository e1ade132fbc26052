ghost use Rattle.std.specs.Prelude.{◌≡◌, IfOk, map, filter};
ghost use Rattle.iocm_record_reader.specs.Values.{as_carried, carried_by};

use iocm_keywords::is_carried;
use iocm_record::Carried;
use iocm_statements::{OperandKey, Operands, Operation};
use iocm_types::Text;
use std::alloc::{AllocError, Global};

// An operand as a record carries it.
fn as_carried(alloc: Global, key: &OperandKey, text: &[u8]) -> Result<Carried, AllocError>
    ensures { IfOk result (λ carried. carried ≡ as_carried (key.now, text.now)) }
{
    let keyword = match key {
        OperandKey::Keyword(keyword) => Some(Text::from_slice(alloc, keyword.as_slice())?),
        OperandKey::Bare(_) => None,
    };
    Ok(Carried::new(keyword, Text::from_slice(alloc, text)?))
}

/// The operands that a statement doesn't know, in their order, as a record carries them.
#[tactic(auto, using(crate::proofs::Carrying::carried_steps))]
pub fn carried_by(
    alloc: Global,
    operation: Operation,
    operands: &Operands,
) -> Result<Vec<Carried>, AllocError>
    ensures { IfOk result (λ carried. carried.items ≡ carried_by operation operands.now) }
{
    let mut carried = Vec::new(alloc);
    for index in 0..operands.len() {
        let (key, text) = operands.at(index);
        if !is_carried(operation, key, text) {
            continue;
        }
        carried.push(as_carried(alloc, key, text)?)?;
    }
    Ok(carried)
}
