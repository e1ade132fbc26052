ghost use Rattle.std.specs.Prelude.{◌≡◌, ◌+◌, ◌≤◌, length, map, IfOk, IfSome};
ghost use Rattle.std.specs.List.{list_all};
ghost use Rattle.iocm_types.specs.Fault.{Gives};
ghost use Rattle.iocm_types.specs.Each.{each};
ghost use Rattle.iocm_statements.specs.Nesting.{start};
ghost use Rattle.iocm_statements.specs.Operands.{equals_from, is_keyword_byte, is_keyword, keyword_operand};
ghost use Rattle.iocm_statements.specs.Operands.{operand_of, operand_texts};
ghost use Rattle.iocm_statements.specs.declared.operands.OperandKey.TheVariants.{Keyword};

use crate::nesting::Nesting;
use crate::split::pieces;
use crate::{OperandKey, ShortText};
use iocm_types::Fault;
use std::alloc::{AllocError, Global};

/// Where the first equal sign outside parentheses and quotes stands.
#[tactic(auto, using(crate::proofs::Splitting::splitting))]
fn equals_at(text: &[u8]) -> Option<usize>
    ensures found { result ≡ equals_from start text.now }
    ensures within { IfSome result (λ n. n + 1 ≤ length text.now) }
{
    let mut nesting = Nesting::start();
    for (index, byte) in text.iter().enumerate() {
        if nesting.sets(*byte) {
            return Some(index);
        }
        nesting = nesting.after(*byte)?;
    }
    None
}

fn are_keyword_bytes(text: &[u8]) -> bool
    ensures { result ≡ list_all is_keyword_byte text.now }
{
    text.iter()
        .all(|byte| byte.is_ascii_uppercase() || byte.is_ascii_digit())
}

fn is_keyword(text: &[u8]) -> bool
    ensures { result ≡ is_keyword text.now }
{
    !text.is_empty() && are_keyword_bytes(text)
}

/// The operand whose equal sign stands at `equals`.
fn keyword_operand(
    alloc: Global,
    text: &[u8],
    equals: usize,
    malformed: Fault,
) -> Result<(OperandKey, ShortText), Fault>
    requires { equals + 1 ≤ length text.now }
    ensures { Gives (λ operand. operand) result (keyword_operand malformed text.now equals) }
{
    let (keyword, rest) = text.split_at(equals);
    let (_, value) = rest.split_at(1);
    if !is_keyword(keyword) {
        return Err(malformed);
    }
    Ok(under_keyword(alloc, keyword, value)?)
}

/// The operand of a keyword and a value.
fn under_keyword(
    alloc: Global,
    keyword: &[u8],
    value: &[u8],
) -> Result<(OperandKey, ShortText), AllocError>
    ensures { IfOk result (λ operand. operand ≡ (Keyword keyword.now, value.now)) }
{
    let key = ShortText::from_slice(alloc, keyword)?;
    let text = ShortText::from_slice(alloc, value)?;
    Ok((OperandKey::Keyword(key), text))
}

/// The operand at this place of its statement.
fn make_operand(
    alloc: Global,
    place: usize,
    text: &[u8],
    malformed: Fault,
) -> Result<(OperandKey, ShortText), Fault>
    ensures { Gives (λ operand. operand) result (operand_of malformed place text.now) }
{
    if text.is_empty() {
        return Err(malformed);
    }
    match equals_at(text) {
        Some(equals) => keyword_operand(alloc, text, equals, malformed),
        None => Ok((OperandKey::Bare(place), ShortText::from_slice(alloc, text)?)),
    }
}

/// All operands of these texts, in order.
#[tactic(auto, using(crate::proofs::Looked::each_steps))]
pub(crate) fn make_operands(
    alloc: Global,
    texts: &[&[u8]],
    malformed: Fault,
) -> Result<Vec<(OperandKey, ShortText)>, Fault>
    ensures { Gives (λ v. v.items) result (each (operand_of malformed) 0 (map (λ k. k.now) texts.now)) }
{
    let mut operands = Vec::with_capacity(alloc, texts.len())?;
    for (place, text) in texts.iter().enumerate() {
        operands.push(make_operand(alloc, place, text, malformed)?)?;
    }
    Ok(operands)
}

/// The texts of the operands of an operand part; an empty part has none.
pub(crate) fn operand_texts<'a>(
    alloc: Global,
    text: &'a [u8],
    unmatched: Fault,
) -> Result<Vec<&'a [u8]>, Fault>
    ensures { Gives (λ v. map (λ k. k.now) v.items) result (operand_texts unmatched text.now) }
{
    if text.is_empty() {
        return Ok(Vec::new(alloc));
    }
    pieces(alloc, text).map_err(|unread| unread.fault(unmatched))
}
