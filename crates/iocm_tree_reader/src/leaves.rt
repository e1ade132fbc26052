ghost use Rattle.std.specs.Prelude.{◌≡◌, map, IfOk};
ghost use Rattle.iocm_types.specs.Fault.{Gives};
ghost use Rattle.iocm_model.specs.Change.Edit.{add, delete, modify};
ghost use Rattle.iocm_tree.specs.Carried.{bare};
ghost use Rattle.iocm_tree_reader.specs.Leaves as meaning;

use iocm_change_records::{keys_of, records_of, verb_named};
use iocm_record::Record;
use iocm_statements::Statement;
use iocm_tree::{Edit, Verb};
use iocm_types::{Fault, Key, Rule};
use std::alloc::{AllocError, Allocator, Global};

fn additions<A: Allocator + Copy>(
    alloc: A,
    records: Vec<Record<A>, A>,
) -> Result<Vec<Edit<A>, A>, AllocError>
    ensures { IfOk result (λ edits. edits.items ≡ map (λ r. bare (add r)) records.items) }
{
    let mut edits = Vec::new(alloc);
    for entry in records {
        edits.push(Edit::add(alloc, entry))?;
    }
    Ok(edits)
}

fn modifications<A: Allocator + Copy>(
    alloc: A,
    records: Vec<Record<A>, A>,
) -> Result<Vec<Edit<A>, A>, AllocError>
    ensures { IfOk result (λ edits. edits.items ≡ map (λ r. bare (modify r)) records.items) }
{
    let mut edits = Vec::new(alloc);
    for entry in records {
        edits.push(Edit::modify(alloc, entry))?;
    }
    Ok(edits)
}

fn deletions<A: Allocator + Copy>(alloc: A, keys: Vec<Key>) -> Result<Vec<Edit<A>, A>, AllocError>
    ensures { IfOk result (λ edits. edits.items ≡ map (λ k. bare (delete k)) keys.items) }
{
    let mut edits = Vec::new(alloc);
    for key in keys {
        edits.push(Edit::delete(alloc, key))?;
    }
    Ok(edits)
}

/// The edits of a statement in the order of the text, with nothing that comes along, or its first
/// fault: S10, S3, S5, S4. M1 comes without memory.
pub fn edits_of<A: Allocator + Copy>(
    global: Global,
    alloc: A,
    statement: &Statement,
) -> Result<Vec<Edit<A>, A>, Fault>
    ensures { Gives (λ v. v.items) result (meaning.edits_of statement.now) }
{
    match verb_named(statement.name.as_slice()) {
        Some(Verb::Add) => Ok(additions(alloc, records_of(global, alloc, statement)?)?),
        Some(Verb::Modify) => Ok(modifications(alloc, records_of(global, alloc, statement)?)?),
        Some(Verb::Delete) => Ok(deletions(alloc, keys_of(global, statement)?)?),
        None => Err(Fault {
            rule: Rule::S10,
            line: statement.line,
        }),
    }
}
