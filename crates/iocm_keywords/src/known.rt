ghost use Rattle.std.specs.Prelude.{◌≡◌, map, List, ℕ};
ghost use Rattle.std.specs.List.{list_any};
ghost use Rattle.iocm_keywords.specs.Known as meaning;
ghost use Rattle.iocm_keywords.specs.Known.{seen_row};

use iocm_statements::{OperandKey, Operands, Operation, is_same_word};

/// The form that a known operand stands in.
#[derive(Clone, Copy, PartialEq, Eq)]
pub enum Form {
    /// A keyword with a value, which the statement can't do without.
    Required,
    /// A keyword with a value.
    Optional,
    /// A bare word.
    Bare,
    /// None: the operand is left out in every form.
    LeftOut,
}

/// A word that a statement knows, and the form that it stands in.
#[derive(Clone, Copy)]
pub struct Row<'a> {
    /// The keyword, or the bare word.
    pub word: &'a [u8],
    /// Its form.
    pub form: Form,
}

const RESOURCE: [Row<'static>; 2] = [
    Row {
        word: b"PARTITION",
        form: Form::Optional,
    },
    Row {
        word: b"MAXDEV",
        form: Form::Optional,
    },
];

const CHPID: [Row<'static>; 5] = [
    Row {
        word: b"PATH",
        form: Form::Required,
    },
    Row {
        word: b"SHARED",
        form: Form::Bare,
    },
    Row {
        word: b"REC",
        form: Form::Bare,
    },
    Row {
        word: b"PARTITION",
        form: Form::Optional,
    },
    Row {
        word: b"NOTPART",
        form: Form::LeftOut,
    },
];

const CNTLUNIT: [Row<'static>; 5] = [
    Row {
        word: b"CUNUMBR",
        form: Form::Required,
    },
    Row {
        word: b"PATH",
        form: Form::Optional,
    },
    Row {
        word: b"UNITADD",
        form: Form::Optional,
    },
    Row {
        word: b"LINK",
        form: Form::Optional,
    },
    Row {
        word: b"CUADD",
        form: Form::Optional,
    },
];

const IODEVICE: [Row<'static>; 6] = [
    Row {
        word: b"ADDRESS",
        form: Form::Required,
    },
    Row {
        word: b"CUNUMBR",
        form: Form::Optional,
    },
    Row {
        word: b"UNITADD",
        form: Form::Optional,
    },
    Row {
        word: b"SCHSET",
        form: Form::Optional,
    },
    Row {
        word: b"PARTITION",
        form: Form::Optional,
    },
    Row {
        word: b"NOTPART",
        form: Form::LeftOut,
    },
];

/// The words that a statement knows. (IOCP User's Guide, the statements; which are known is own.)
pub fn table(operation: Operation) -> &'static [Row<'static>]
    ensures { map seen_row result.now ≡ meaning.table operation }
{
    match operation {
        Operation::Resource => &RESOURCE,
        Operation::Chpid => &CHPID,
        Operation::Cntlunit => &CNTLUNIT,
        Operation::Iodevice => &IODEVICE,
        _ => {
            let none: &[Row<'static>] = &[];
            none
        }
    }
}

/// The form of a word in a table, if the table names it.
#[tactic(auto, using(crate::proofs::Rows::form_steps))]
pub fn form_in(rows: &[Row], word: &[u8]) -> Option<Form>
    ensures { result ≡ meaning.form_in (map seen_row rows.now) word.now }
{
    for row in rows {
        if is_same_word(word, row.word) {
            return Some(row.form);
        }
    }
    None
}

/// The word that an operand is told by: its keyword, or the whole of a bare text.
pub fn word_of<'a>(key: &'a OperandKey, text: &'a [u8]) -> &'a [u8]
    ensures { result.now ≡ meaning.word_of (key.now, text.now) }
{
    match key {
        OperandKey::Keyword(word) => word.as_slice(),
        OperandKey::Bare(_) => text,
    }
}

/// Whether an operand stands under a keyword.
pub fn has_value(key: &OperandKey) -> bool
    ensures { (text : List ℕ) → result ≡ meaning.has_value (key.now, text) }
{
    matches!(key, OperandKey::Keyword(_))
}

/// Whether the statement doesn't know an operand, which it then carries along.
pub fn is_carried(operation: Operation, key: &OperandKey, text: &[u8]) -> bool
    ensures { result ≡ meaning.is_carried operation (key.now, text.now) }
{
    form_in(table(operation), word_of(key, text)).is_none()
}

fn is_missing(operands: &Operands, row: &Row) -> bool
    ensures { result ≡ meaning.is_missing operands.now (seen_row row.now) }
{
    row.form == Form::Required && operands.get(row.word).is_none()
}

/// Whether the operand of a row that is required isn't there.
#[tactic(auto, using(iocm_values::proofs::Looking::any_steps))]
pub fn is_one_missing(operands: &Operands, rows: &[Row]) -> bool
    ensures { result ≡ list_any (meaning.is_missing operands.now) (map seen_row rows.now) }
{
    for row in rows {
        if is_missing(operands, row) {
            return true;
        }
    }
    false
}

/// Whether a required operand of the statement isn't there.
pub fn lacks_required(operation: Operation, operands: &Operands) -> bool
    ensures { result ≡ meaning.lacks_required operation operands.now }
{
    is_one_missing(operands, table(operation))
}

fn is_other_form(operation: Operation, key: &OperandKey, text: &[u8]) -> bool
    ensures { result ≡ meaning.is_other_form operation (key.now, text.now) }
{
    match form_in(table(operation), word_of(key, text)) {
        Some(Form::Bare) => has_value(key),
        Some(Form::Required) => !has_value(key),
        Some(Form::Optional) => !has_value(key),
        _ => false,
    }
}

/// Whether a known word stands in another form than its own.
#[tactic(auto, using(iocm_types::proofs::Any::any_steps))]
pub fn has_other_form(operation: Operation, operands: &Operands) -> bool
    ensures { result ≡ list_any (meaning.is_other_form operation) operands.now }
{
    for index in 0..operands.len() {
        let (key, text) = operands.at(index);
        if is_other_form(operation, key, text) {
            return true;
        }
    }
    false
}
