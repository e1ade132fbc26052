ghost use Rattle.std.specs.Prelude.{◌≡◌, IfOk};
ghost use Rattle.iocm_types.specs.Fault.{Gives};
ghost use Rattle.iocm_model.specs.Machine.Configuration.{HasNoKeyTwice};
ghost use Rattle.iocm_record_reader.specs.Deck as deck;

use crate::progress::{Progress, is_resource};
use crate::statements::statement_records;
use iocm_keywords::{has_left_out, has_other_form, lacks_required};
use iocm_operands::{ImageEntry, images_of};
use iocm_record::Record;
use iocm_statements::{Operation, Statement, Unread};
use iocm_types::{Fault, Rule};
use iocm_values::Value;
use std::alloc::{AllocError, Global};

fn is_of_changes(operation: Operation) -> bool
    ensures { result ≡ deck.is_of_changes operation }
{
    match operation {
        Operation::Id => false,
        Operation::Resource => false,
        Operation::Chpid => false,
        Operation::Cntlunit => false,
        Operation::Iodevice => false,
        _ => true,
    }
}

// A statement of which one stands in the deck already.
fn is_repeated(progress: &Progress, operation: Operation) -> bool
    ensures { result ≡ deck.is_repeated progress.now operation }
{
    match operation {
        Operation::Id => progress.has_id(),
        Operation::Resource => progress.has_resource(),
        _ => false,
    }
}

// What is wrong with a statement before its values are read: S1, S7, S3, S5 or S4.
fn first_fault(
    alloc: Global,
    progress: &Progress,
    statement: &Statement,
) -> Result<Option<Rule>, AllocError>
    ensures { IfOk result (λ rule. rule ≡ deck.first_fault progress.now statement.now) }
{
    let Statement {
        operation,
        operands,
        ..
    } = statement;
    if is_of_changes(*operation) {
        return Ok(Some(Rule::S1));
    }
    if is_repeated(progress, *operation) {
        return Ok(Some(Rule::S7));
    }
    if lacks_required(*operation, operands) {
        return Ok(Some(Rule::S3));
    }
    if has_left_out(alloc, *operation, operands)? {
        return Ok(Some(Rule::S5));
    }
    if has_other_form(*operation, operands) {
        return Ok(Some(Rule::S4));
    }
    Ok(None)
}

/// The records of a statement, or its first fault: S1, S7, S3, S5, S4.
pub fn read_statement(
    alloc: Global,
    images: &[ImageEntry],
    progress: &Progress,
    statement: &Statement,
) -> Result<Vec<Record>, Fault>
    ensures { Gives (λ v. v.items) result (deck.read_statement images.now progress.now statement.now) }
{
    let line = statement.line;
    match first_fault(alloc, progress, statement)? {
        Some(rule) => Err(Fault { rule, line }),
        None => {
            let malformed = Fault {
                rule: Rule::S4,
                line,
            };
            statement_records(
                alloc,
                images,
                statement.operation,
                &statement.operands,
                malformed,
            )
        }
    }
}

fn read_next(
    alloc: Global,
    images: &[ImageEntry],
    progress: Progress,
    statement: &Statement,
) -> Result<Progress, Fault>
    ensures { Gives (λ p. p) result (deck.progress_after images.now progress statement.now) }
{
    let found = read_statement(alloc, images, &progress, statement)?;
    let twice = Fault {
        rule: Rule::S8,
        line: statement.line,
    };
    progress.with(found, statement.operation, twice)
}

// The images that a RESOURCE statement gives, or none where it has a fault.
fn images_or_none(alloc: Global, statement: &Statement) -> Result<Vec<ImageEntry>, AllocError>
    ensures { IfOk result (λ v. v.items ≡ deck.images_or_none statement.now) }
{
    match statement.operands.get(b"PARTITION") {
        Some(text) => match images_of(alloc, Value::new(text)) {
            Ok(images) => Ok(images),
            Err(Unread::Malformed) => Ok(Vec::new(alloc)),
            Err(Unread::Memory) => Err(AllocError),
        },
        None => Ok(Vec::new(alloc)),
    }
}

/// The images of the machine, which defaults look at wherever the RESOURCE statement stands. Answers
/// the lack of memory alone.
#[tactic(auto, using(crate::proofs::Machine::machine_steps))]
pub fn machine_images(
    alloc: Global,
    statements: &[Statement],
) -> Result<Vec<ImageEntry>, AllocError>
    ensures { IfOk result (λ v. v.items ≡ deck.machine_images statements.now) }
{
    for statement in statements {
        if is_resource(statement.operation) {
            return images_or_none(alloc, statement);
        }
    }
    Ok(Vec::new(alloc))
}

#[tactic(auto, using(crate::proofs::Machine::read_steps))]
fn read_all(
    alloc: Global,
    images: &[ImageEntry],
    statements: &[Statement],
) -> Result<Progress, Fault>
    ensures { Gives (λ p. p.records) result (deck.read_from images.now deck.nothing_read statements.now) }
{
    let mut progress = Progress::new(alloc);
    for statement in statements {
        progress = read_next(alloc, images, progress, statement)?;
    }
    Ok(progress)
}

/// The records of a configuration deck, no two of one key.
///
/// The statements are taken in order, and the first that has a fault refuses the deck with its
/// line. Per statement the first of these counts: S1, an operation of change decks; S7, a second ID
/// or RESOURCE statement; S3, a required keyword that is missing; S5, a form that this product
/// leaves out; S4, a malformed value; S8, a key that the deck has already. M1 comes without memory.
/// (IOCP User's Guide, the statements; the numbers and the order of the faults are own.)
///
/// Promise: a deck's records are made exactly, or its first fault is answered.
pub fn from_statements(alloc: Global, statements: &[Statement]) -> Result<Vec<Record>, Fault>
    ensures records { Gives (λ v. v.items) result (deck.deck_records statements.now) }
    ensures apart { IfOk result (λ v. HasNoKeyTwice v.items) }
{
    let images = machine_images(alloc, statements)?;
    let progress = read_all(alloc, &images, statements)?;
    Ok(progress.into_records())
}
