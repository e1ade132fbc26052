ghost use Rattle.std.specs.Prelude.{◌≡◌, codes, IfOk};
ghost use Rattle.std.specs.List.{list_any};
ghost use Rattle.iocm_types.specs.Fault.{Gives};
ghost use Rattle.iocm_statements.specs.Unread.{Reads};
ghost use Rattle.iocm_values.specs.Value.{seen};
ghost use Rattle.iocm_record_reader.specs.Values.{required};
ghost use Rattle.iocm_change_records.specs.Pairs as meaning;

use crate::table::{has_key_left_out, lacks_key};
use iocm_record::Record;
use iocm_record_reader::{add_online, chpid_path};
use iocm_statements::{OperandKey, Operands, Operation, Statement, Unread, or_malformed};
use iocm_tree::Verb;
use iocm_types::{CssPath, Fault, List, Name, Rule};
use iocm_values::{Value, read_names};
use std::alloc::{AllocError, Global};

/// What an ONLINE statement is about: a path, and names in the order of the text.
#[derive(Drop)]
pub struct Pairs {
    /// The path.
    pub path: CssPath,
    /// The names; one that stands twice is there twice.
    pub names: List<Name>,
}

// A list of one or more names, in the order of the text.
fn names_listed(alloc: Global, value: Value) -> Result<List<Name>, Unread>
    ensures { Reads (λ names. names) result (meaning.names_listed (seen value.entry)) }
{
    let items = value.items(alloc)?;
    Ok(List::from_vec(read_names(alloc, &items)?))
}

fn written_names(alloc: Global, operands: &Operands, malformed: Fault) -> Result<List<Name>, Fault>
    ensures { Gives (λ names. names) result (required malformed meaning.names_listed (codes "PARTITION") operands.now) }
{
    let text = operands.get(b"PARTITION").ok_or(malformed)?;
    or_malformed(names_listed(alloc, Value::new(text)), malformed)
}

/// The path of an ONLINE statement and its names. Answers `malformed` where a value is, and M1
/// without memory.
pub fn pairs_of(alloc: Global, operands: &Operands, malformed: Fault) -> Result<Pairs, Fault>
    ensures { Gives (λ p. p) result (meaning.pairs_of malformed operands.now) }
{
    let path = chpid_path(alloc, operands, malformed)?;
    let names = written_names(alloc, operands, malformed)?;
    Ok(Pairs { path, names })
}

fn is_beside(key: &OperandKey, text: &[u8]) -> bool
    ensures { result ≡ meaning.is_beside (key.now, text.now) }
{
    let _text = text;
    !key.is_under(b"PATH") && !key.is_under(b"PARTITION")
}

// Whether one of the operands is neither PATH nor PARTITION.
#[tactic(auto, using(iocm_types::proofs::Any::any_steps))]
fn has_others(operands: &Operands) -> bool
    ensures { result ≡ list_any meaning.is_beside operands.now }
{
    for index in 0..operands.len() {
        let (key, text) = operands.at(index);
        if is_beside(key, text) {
            return true;
        }
    }
    false
}

fn is_modify(verb: Verb) -> bool
    ensures { result ≡ meaning.is_modify verb }
{
    match verb {
        Verb::Modify => true,
        _ => false,
    }
}

// What is wrong with an ONLINE statement that adds, before its values are read: S3, S5 or S4.
fn online_fault(alloc: Global, verb: Verb, operands: &Operands) -> Result<Option<Rule>, AllocError>
    ensures { IfOk result (λ rule. rule ≡ meaning.online_fault verb operands.now) }
{
    if lacks_key(Operation::Online, operands) {
        return Ok(Some(Rule::S3));
    }
    if is_modify(verb) {
        return Ok(Some(Rule::S5));
    }
    if has_key_left_out(alloc, Operation::Online, operands)? {
        return Ok(Some(Rule::S5));
    }
    if has_others(operands) {
        return Ok(Some(Rule::S4));
    }
    Ok(None)
}

/// What an ONLINE statement adds, a record for each name, or its first fault: S3, S5, which MODIFY
/// is too, or S4.
pub fn online_records(
    alloc: Global,
    verb: Verb,
    statement: &Statement,
) -> Result<Vec<Record>, Fault>
    ensures { Gives (λ v. v.items) result (meaning.online_records verb statement.now) }
{
    let line = statement.line;
    if let Some(rule) = online_fault(alloc, verb, &statement.operands)? {
        return Err(Fault { rule, line });
    }
    let malformed = Fault {
        rule: Rule::S4,
        line,
    };
    let pairs = pairs_of(alloc, &statement.operands, malformed)?;
    let mut records = Vec::new(alloc);
    let path = pairs.path;
    add_online(&mut records, path.css, path.path, pairs.names.as_slice())?;
    Ok(records)
}
