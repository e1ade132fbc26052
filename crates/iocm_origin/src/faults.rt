ghost use Rattle.std.specs.Prelude.{◌≡◌, IfOk};
ghost use Rattle.iocm_origin.specs.Faults as meaning;

use crate::origin::told;
use iocm_columns::{Joined, join};
use iocm_operands::ImageEntry;
use iocm_record_reader::{Progress, from_statements, machine_images, read_statement};
use iocm_statements::{Statement, parse};
use iocm_types::Fault;
use std::alloc::{AllocError, Global};
use std::slice::from_ref;

/// All faults of the statements of a deck; there are none if its lines aren't statements. If texts of
/// statements can't be read, those of all such texts. Else the first fault of its records, and then that
/// of every other statement that has one by itself. Each is the first fault of its statement, and they
/// come in the order of the text. S7 and S8 are told only if they are the first fault. The time is that
/// of reading the deck twice.
///
/// `AllocError` (M1): memory ran out.
///
/// Promise: each further statement with a fault of its own is listed with its first one.
pub fn all_faults(alloc: Global, deck: &[u8]) -> Result<Vec<Fault>, AllocError>
    ensures { IfOk result (λ faults. faults.items ≡ meaning.all_faults deck.now) }
{
    match told(join(alloc, deck))? {
        Ok(joined) => statement_faults(alloc, &joined),
        Err(_) => Ok(Vec::new(alloc)),
    }
}

/// All faults of joined statements.
fn statement_faults(alloc: Global, joined: &[Joined]) -> Result<Vec<Fault>, AllocError>
    ensures { IfOk result (λ faults. faults.items ≡ meaning.statement_faults joined.now) }
{
    match told(parse(alloc, joined))? {
        Ok(statements) => match told(from_statements(alloc, &statements))? {
            Ok(_) => Ok(Vec::new(alloc)),
            Err(first) => with_others(alloc, first, &statements),
        },
        Err(_) => text_faults(alloc, joined),
    }
}

/// The fault of each statement whose text can't be read, in order: each is parsed as if it were the
/// only one.
#[tactic(auto, using(crate::proofs::FirstFault::gathering_steps))]
fn text_faults(alloc: Global, joined: &[Joined]) -> Result<Vec<Fault>, AllocError>
    ensures { IfOk result (λ faults. faults.items ≡ meaning.text_faults joined.now) }
{
    let mut faults = Vec::new(alloc);
    for statement in joined {
        if let Err(fault) = told(parse(alloc, from_ref(statement)))? {
            faults.push(fault)?;
        }
    }
    Ok(faults)
}

/// A fault, and then that of every statement at another line that has one by itself.
#[tactic(auto, using(crate::proofs::FirstFault::gathering_steps))]
fn with_others(
    alloc: Global,
    first: Fault,
    statements: &[Statement],
) -> Result<Vec<Fault>, AllocError>
    ensures { IfOk result (λ faults. faults.items ≡ meaning.with_others first statements.now) }
{
    let images = machine_images(alloc, statements)?;
    let mut faults = Vec::new(alloc);
    faults.push(first)?;
    for statement in statements {
        if let Some(fault) = fault_elsewhere(alloc, first.line, &images, statement)? {
            faults.push(fault)?;
        }
    }
    Ok(faults)
}

/// The fault that a statement has by itself, if it stands at another line than this.
fn fault_elsewhere(
    alloc: Global,
    line: usize,
    images: &[ImageEntry],
    statement: &Statement,
) -> Result<Option<Fault>, AllocError>
    ensures { IfOk result (λ fault. fault ≡ meaning.fault_elsewhere line images.now statement.now) }
{
    if statement.line == line {
        return Ok(None);
    }
    Ok(told(read_statement(alloc, images, &Progress::new(alloc), statement))?.err())
}
