ghost use Rattle.std.specs.Prelude.{◌≡◌, IfOk};
ghost use Rattle.iocm_origin.specs.Keys as lines;

use crate::origin::told;
use iocm_operands::ImageEntry;
use iocm_record::Record;
use iocm_record_reader::{machine_images, statement_records};
use iocm_statements::Statement;
use iocm_types::{Fault, Key, Rule};
use std::alloc::{AllocError, Global};

/// The line of a configuration deck that a key comes from: that of the first statement that brings
/// it, and none where no statement does. That a path is online to an image comes with the path. A
/// statement with a fault brings no key.
///
/// `AllocError` (M1): memory ran out.
#[tactic(auto, using(crate::proofs::LinesOfKeys::line_steps))]
pub(crate) fn line_of_key(
    alloc: Global,
    statements: &[Statement],
    key: Key,
) -> Result<Option<usize>, AllocError>
    ensures { IfOk result (λ line. line ≡ lines.line_of_key statements.now key) }
{
    let images = machine_images(alloc, statements)?;
    let sought = comes_with(key);
    for statement in statements {
        if does_bring(alloc, &images, &sought, statement)? {
            return Ok(Some(statement.line));
        }
    }
    Ok(None)
}

/// The key that a key comes with.
fn comes_with(key: Key) -> Key
    ensures { result ≡ lines.comes_with key }
{
    match key {
        Key::Online(css, path, _) => Key::Path(css, path),
        _ => key,
    }
}

/// Whether a statement has a record of this key.
fn does_bring(
    alloc: Global,
    images: &[ImageEntry],
    key: &Key,
    statement: &Statement,
) -> Result<bool, AllocError>
    ensures { IfOk result (λ brings. brings
        ≡ lines.is_of_one (lines.brought images.now statement.now) key.now) }
{
    let malformed = Fault {
        rule: Rule::S4,
        line: statement.line,
    };
    let (operation, operands) = (statement.operation, &statement.operands);
    let records = told(statement_records(alloc, images, operation, operands, malformed))?;
    Ok(records.is_ok_and(|records| is_of_one(&records, key)))
}

/// Whether one of these records has this key.
fn is_of_one(records: &[Record], key: &Key) -> bool
    ensures { result ≡ lines.is_of_one records.now key.now }
{
    records.iter().any(|entry| key.order(entry.key()).is_eq())
}
