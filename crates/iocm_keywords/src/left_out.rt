ghost use Rattle.std.specs.Prelude.{◌≡◌, ◌==◌, map, IfOk, OnOk};
ghost use Rattle.std.specs.List.{list_any};
ghost use Rattle.iocm_keywords.specs.LeftOut as meaning;
ghost use Rattle.iocm_values.specs.Value.{seen};
ghost use Rattle.iocm_values.specs.ItemWords.{item_words};

use crate::known::{Form, form_in, has_value, table, word_of};
use iocm_statements::{OperandKey, Operands, Operation, Unread, is_same_word, pieces};
use iocm_values::{Value, inside_css, is_decimal_number, is_hex_number, item_words};
use std::alloc::{AllocError, Global};

fn count_decimals(texts: &[&[u8]]) -> usize
    ensures { result ≡ meaning.count_decimals (map (λ k. k.now) texts.now) }
{
    texts.iter().filter(|text| is_decimal_number(text)).count()
}

// The word `CSS(..)` with two decimal numbers or more among its items.
fn spans_css(alloc: Global, text: &[u8]) -> Result<bool, AllocError>
    ensures { IfOk result (λ answer. answer ≡ meaning.spans_css text.now) }
{
    let Some(inner) = inside_css(text) else {
        return Ok(false);
    };
    match pieces(alloc, inner) {
        Ok(pieces) => Ok(count_decimals(&pieces) >= 2),
        Err(Unread::Malformed) => Ok(false),
        Err(Unread::Memory) => Err(AllocError),
    }
}

#[tactic(auto, using(iocm_values::proofs::Looking::any_steps))]
fn has_span(alloc: Global, texts: &[&[u8]]) -> Result<bool, AllocError>
    ensures { IfOk result (λ answer. answer ≡ list_any meaning.spans_css (map (λ k. k.now) texts.now)) }
{
    for text in texts {
        if spans_css(alloc, text)? {
            return Ok(true);
        }
    }
    Ok(false)
}

fn has_s(text: &[u8]) -> bool
    ensures { result ≡ list_any (λ b. b == 83) text.now }
{
    text.iter().any(|byte| *byte == b'S')
}

// One of the words of items names several channel subsystems. A text without an S, as most are,
// isn't cut into words.
#[tactic(auto, using(crate::proofs::Without::none_without_s))]
fn names_several_css(alloc: Global, text: &[u8]) -> Result<bool, AllocError>
    ensures { IfOk result (λ answer. answer ≡ meaning.names_several_css text.now) }
{
    if !has_s(text) {
        return Ok(false);
    }
    let words = item_words(alloc, text)?;
    has_span(alloc, &words)
}

fn is_path_word(text: &[u8]) -> bool
    ensures { result ≡ meaning.is_path_word text.now }
{
    is_hex_number(text) && text.len() <= 2
}

// Two of the words of items are path numbers, or more.
fn names_several_paths(alloc: Global, text: &[u8]) -> Result<bool, AllocError>
    ensures { IfOk result (λ answer. answer ≡ meaning.names_several_paths text.now) }
{
    let words = item_words(alloc, text)?;
    Ok(words.iter().filter(|word| is_path_word(word)).count() >= 2)
}

fn is_list(alloc: Global, value: Value) -> Result<bool, AllocError>
    ensures { IfOk result (λ answer. answer ≡ meaning.is_list (seen value.entry)) }
{
    match value.items(alloc) {
        Ok(_) => Ok(true),
        Err(Unread::Malformed) => Ok(false),
        Err(Unread::Memory) => Err(AllocError),
    }
}

// Several paths of a CHPID, and a list of subchannel sets.
fn is_form_left_out(
    alloc: Global,
    operation: Operation,
    keyword: &[u8],
    text: &[u8],
) -> Result<bool, AllocError>
    ensures { IfOk result (λ answer. answer ≡ meaning.is_form_left_out operation keyword.now text.now) }
{
    match operation {
        Operation::Chpid => {
            if !is_same_word(keyword, b"PATH") {
                return Ok(false);
            }
            names_several_paths(alloc, text)
        }
        Operation::Iodevice => {
            if !is_same_word(keyword, b"SCHSET") {
                return Ok(false);
            }
            is_list(alloc, Value::new(text))
        }
        _ => Ok(false),
    }
}

/// Whether the value of a keyword is in a form that is left out by name: it names several channel
/// subsystems in one `CSS(..)`, several paths of a CHPID, or several subchannel sets.
pub fn is_text_left_out(
    alloc: Global,
    operation: Operation,
    keyword: &[u8],
    text: &[u8],
) -> Result<bool, AllocError>
    ensures { IfOk result (λ answer. answer ≡ meaning.is_text_left_out operation keyword.now text.now) }
{
    if names_several_css(alloc, text)? {
        return Ok(true);
    }
    is_form_left_out(alloc, operation, keyword, text)
}

fn is_value_left_out(
    alloc: Global,
    operation: Operation,
    key: &OperandKey,
    text: &[u8],
) -> Result<bool, AllocError>
    ensures { IfOk result (λ answer. answer ≡ meaning.is_value_left_out operation (key.now, text.now)) }
{
    if !has_value(key) {
        return Ok(false);
    }
    is_text_left_out(alloc, operation, word_of(key, text), text)
}

fn is_left_out(
    alloc: Global,
    operation: Operation,
    key: &OperandKey,
    text: &[u8],
) -> Result<bool, AllocError>
    ensures { IfOk result (λ answer. answer ≡ meaning.is_left_out operation (key.now, text.now)) }
{
    match form_in(table(operation), word_of(key, text)) {
        Some(Form::LeftOut) => Ok(true),
        Some(Form::Required) => is_value_left_out(alloc, operation, key, text),
        Some(Form::Optional) => is_value_left_out(alloc, operation, key, text),
        _ => Ok(false),
    }
}

/// Whether one of the operands is left out by name: NOTPART; a value that names several channel
/// subsystems in one `CSS(..)`; several paths of a CHPID; a list of subchannel sets. Lists are looked
/// into at every depth, and what is between the parentheses of a `CSS(..)` isn't.
#[tactic(auto, using(iocm_types::proofs::Any::any_steps))]
pub fn has_left_out(
    alloc: Global,
    operation: Operation,
    operands: &Operands,
) -> Result<bool, AllocError>
    ensures { IfOk result (λ answer. answer ≡ list_any (meaning.is_left_out operation) operands.now) }
{
    for index in 0..operands.len() {
        let (key, text) = operands.at(index);
        if is_left_out(alloc, operation, key, text)? {
            return Ok(true);
        }
    }
    Ok(false)
}
