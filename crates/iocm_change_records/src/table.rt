ghost use Rattle.std.specs.Prelude.{◌≡◌, map, IfOk};
ghost use Rattle.std.specs.List.{list_any};
ghost use Rattle.iocm_keywords.specs.Known.{seen_row};
ghost use Rattle.iocm_change_records.specs.Table as meaning;

use iocm_keywords::{Form, Row, is_one_missing, is_text_left_out};
use iocm_statements::{Operands, Operation};
use std::alloc::{AllocError, Global};

const RESOURCE: [Row<'static>; 2] = [
    Row {
        word: b"PARTITION",
        form: Form::Optional,
    },
    Row {
        word: b"MAXDEV",
        form: Form::Optional,
    },
];

const CHPID: [Row<'static>; 1] = [Row {
    word: b"PATH",
    form: Form::Required,
}];

const CNTLUNIT: [Row<'static>; 1] = [Row {
    word: b"CUNUMBR",
    form: Form::Required,
}];

const IODEVICE: [Row<'static>; 2] = [
    Row {
        word: b"ADDRESS",
        form: Form::Required,
    },
    Row {
        word: b"SCHSET",
        form: Form::Optional,
    },
];

const ONLINE: [Row<'static>; 2] = [
    Row {
        word: b"PATH",
        form: Form::Required,
    },
    Row {
        word: b"PARTITION",
        form: Form::Required,
    },
];

// The words by which a statement says which records it is about.
fn key_table(operation: Operation) -> &'static [Row<'static>]
    ensures { map seen_row result.now ≡ meaning.key_table operation }
{
    match operation {
        Operation::Resource => &RESOURCE,
        Operation::Chpid => &CHPID,
        Operation::Cntlunit => &CNTLUNIT,
        Operation::Iodevice => &IODEVICE,
        Operation::Online => &ONLINE,
        _ => {
            let none: &[Row<'static>] = &[];
            none
        }
    }
}

/// Whether an operand that a statement's keys need isn't there.
pub fn lacks_key(operation: Operation, operands: &Operands) -> bool
    ensures { result ≡ meaning.lacks_key operation operands.now }
{
    is_one_missing(operands, key_table(operation))
}

// PATH of ONLINE has the forms of a CHPID's PATH.
fn as_deck_operation(operation: Operation) -> Operation
    ensures { result ≡ meaning.as_deck_operation operation }
{
    match operation {
        Operation::Online => Operation::Chpid,
        _ => operation,
    }
}

fn is_key_left_out(
    alloc: Global,
    operation: Operation,
    operands: &Operands,
    row: &Row,
) -> Result<bool, AllocError>
    ensures { IfOk result (λ answer. answer ≡ meaning.is_key_left_out operation operands.now (seen_row row.now)) }
{
    match operands.get(row.word) {
        Some(text) => is_text_left_out(alloc, as_deck_operation(operation), row.word, text),
        None => Ok(false),
    }
}

#[tactic(auto, using(iocm_values::proofs::Looking::any_steps))]
fn is_one_left_out(
    alloc: Global,
    operation: Operation,
    operands: &Operands,
    rows: &[Row],
) -> Result<bool, AllocError>
    ensures { IfOk result
        (λ answer. answer ≡ list_any (meaning.is_key_left_out operation operands.now) (map seen_row rows.now)) }
{
    for row in rows {
        if is_key_left_out(alloc, operation, operands, row)? {
            return Ok(true);
        }
    }
    Ok(false)
}

/// Whether an operand that gives keys has a value in a form that is left out by name.
pub fn has_key_left_out(
    alloc: Global,
    operation: Operation,
    operands: &Operands,
) -> Result<bool, AllocError>
    ensures { IfOk result (λ answer. answer ≡ meaning.has_key_left_out operation operands.now) }
{
    is_one_left_out(alloc, operation, operands, key_table(operation))
}

#[tactic(auto, using(iocm_values::proofs::Looking::any_steps))]
fn is_one_bare(operands: &Operands, rows: &[Row]) -> bool
    ensures { result ≡ list_any (meaning.is_key_bare operands.now) (map seen_row rows.now) }
{
    for row in rows {
        if operands.has_bare(row.word) {
            return true;
        }
    }
    false
}

/// Whether a word that gives keys stands bare.
pub fn has_bare_key(operation: Operation, operands: &Operands) -> bool
    ensures { result ≡ meaning.has_bare_key operation operands.now }
{
    is_one_bare(operands, key_table(operation))
}
