ghost use Rattle.std.specs.Prelude.{◌≡◌};
ghost use Rattle.std.specs.List.{list_any};
ghost use Rattle.iocm_types.specs.Fault.{Gives};
ghost use Rattle.iocm_statements.specs.Operands as operand;
ghost use Rattle.iocm_statements.specs.Operands.{has_twins, same_key, without_twins};

use crate::{OperandKey, Operands, ShortText};
use indexmap::IndexMap;
use iocm_types::Fault;
use std::alloc::Global;

/// The most operands whose keys are compared one with another. A deck has a statement for each
/// device, with three operands or four: a map of each would cost more than its comparisons.
const FEW: usize = 8;

/// The operands under their keys, unless two have the same key.
pub(crate) fn keyed(
    alloc: Global,
    operands: Vec<(OperandKey, ShortText)>,
    twice: Fault,
) -> Result<Operands, Fault>
    ensures { Gives (λ o. o) result (without_twins twice operands.items) }
{
    if operands.len() > FEW {
        return keyed_by_map(alloc, operands, twice);
    }
    if have_twins(operands.as_slice()) {
        return Err(twice);
    }
    Ok(Operands::from_list(operands))
}

/// Whether two of these operands have the same key: each is compared with those behind it.
#[tactic(auto, using(crate::proofs::Twins::pairs))]
fn have_twins(operands: &[(OperandKey, ShortText)]) -> bool
    ensures { result ≡ has_twins operands.now }
{
    let mut rest = operands;
    while let Some((first, more)) = rest.split_first() {
        if has_key(more, &first.0) {
            return true;
        }
        rest = more;
    }
    false
}

/// Whether one of these operands has a key.
fn has_key(operands: &[(OperandKey, ShortText)], key: &OperandKey) -> bool
    ensures { result ≡ list_any (λ (other : operand.Operand). same_key other.0 key.now) operands.now }
{
    operands.iter().any(|(other, _)| other == key)
}

/// The same for operands of any number: they come one by one into a map.
fn keyed_by_map(
    alloc: Global,
    operands: Vec<(OperandKey, ShortText)>,
    twice: Fault,
) -> Result<Operands, Fault>
    ensures { Gives (λ o. o) result (without_twins twice operands.items) }
{
    let mut map = IndexMap::new(alloc);
    for (key, text) in operands {
        if map.insert(key, text)?.is_some() {
            return Err(twice);
        }
    }
    Ok(Operands::from_map(alloc, map)?)
}
