ghost use Rattle.std.specs.Prelude.{◌≡◌, IfOk};
ghost use Rattle.iocm_types.specs.Fault.{Gives};
ghost use Rattle.iocm_change_records.specs.Whole as meaning;

use crate::listed::lacks_lists;
use crate::pairs::online_records;
use crate::verbs::verb_named;
use iocm_record::Record;
use iocm_record_reader::{Progress, from_statements, read_statement};
use iocm_statements::{Operation, Statement};
use iocm_tree::Verb;
use iocm_types::{Fault, Rule};
use std::alloc::{AllocError, Allocator, Global};
use std::slice::from_ref;

// The records of a deck that has this statement alone.
fn alone(alloc: Global, statement: &Statement) -> Result<Vec<Record>, Fault>
    ensures { Gives (λ v. v.items) result (meaning.alone statement.now) }
{
    from_statements(alloc, from_ref(statement))
}

// A path without the images that it is online to.
fn path_alone(alloc: Global, statement: &Statement) -> Result<Vec<Record>, Fault>
    ensures { Gives (λ v. v.items) result (meaning.path_alone statement.now) }
{
    if lacks_lists(alloc, &statement.operands)? {
        return Err(Fault {
            rule: Rule::S3,
            line: statement.line,
        });
    }
    let mut records = alone(alloc, statement)?;
    records.truncate(1);
    Ok(records)
}

fn given(alloc: Global, verb: Verb, statement: &Statement) -> Result<Vec<Record>, Fault>
    ensures { Gives (λ v. v.items) result (meaning.given verb statement.now.operation statement.now) }
{
    match statement.operation {
        Operation::Id => alone(alloc, statement),
        Operation::Resource => read_statement(alloc, &[], &Progress::new(alloc), statement),
        Operation::Chpid => path_alone(alloc, statement),
        Operation::Cntlunit => alone(alloc, statement),
        Operation::Iodevice => alone(alloc, statement),
        Operation::Online => online_records(alloc, verb, statement),
        _ => Ok(Vec::new(alloc)),
    }
}

fn given_or_fault(alloc: Global, statement: &Statement) -> Result<Vec<Record>, Fault>
    ensures { Gives (λ v. v.items) result (meaning.records_of statement.now) }
{
    match verb_named(statement.name.as_slice()) {
        Some(Verb::Add) => given(alloc, Verb::Add, statement),
        Some(Verb::Modify) => given(alloc, Verb::Modify, statement),
        _ => Err(Fault {
            rule: Rule::S10,
            line: statement.line,
        }),
    }
}

fn copies<A: Allocator + Copy>(
    alloc: A,
    records: &[Record],
) -> Result<Vec<Record<A>, A>, AllocError>
    ensures { IfOk result (λ copies. copies.items ≡ records.now) }
{
    let mut copies = Vec::new(alloc);
    for entry in records {
        copies.push(entry.copy_in(alloc)?)?;
    }
    Ok(copies)
}

/// The whole records of an ADD or a MODIFY statement under an allocator, in the order of the text.
/// What is needed only while the statement is read lies in `global`.
///
/// ID, RESOURCE, CNTLUNIT and IODEVICE give what they give in a deck of their own; RESOURCE may
/// give two records of one key. A CHPID gives its path alone, and a SHARED or REC path wants both
/// lists written. ONLINE gives a record for each name. (IOCP User's Guide, the statements; the
/// verbs and ONLINE are own.)
///
/// The first of these with the statement's line: S10, it is neither ADD nor MODIFY; S3, a required
/// operand is missing, or the two lists of a SHARED or REC path aren't both written; S5, a form
/// that this product leaves out, and MODIFY ONLINE; S4, a malformed value, and with ONLINE another
/// operand than PATH and PARTITION. M1 comes without memory.
pub fn records_of<A: Allocator + Copy>(
    global: Global,
    alloc: A,
    statement: &Statement,
) -> Result<Vec<Record<A>, A>, Fault>
    ensures { Gives (λ v. v.items) result (meaning.records_of statement.now) }
{
    let records = given_or_fault(global, statement)?;
    Ok(copies(alloc, &records)?)
}
