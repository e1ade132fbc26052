ghost use Rattle.std.specs.Prelude.{◌≡◌, IfOk};
ghost use Rattle.iocm_types.specs.Fault.{Gives};
ghost use Rattle.iocm_record_reader.specs.Deck as deck;

use crate::chpid::chpid_records;
use crate::device::iodevice_records;
use crate::operands::carried_by;
use crate::resource::resource_records;
use crate::unit::cntlunit_records;
use iocm_operands::ImageEntry;
use iocm_record::{Record, RecordBody};
use iocm_statements::{Operands, Operation};
use iocm_types::Fault;
use std::alloc::{AllocError, Global};

fn id_records(alloc: Global, operands: &Operands) -> Result<Vec<Record>, AllocError>
    ensures { IfOk result (λ records. records.items ≡ deck.id_records operands.now) }
{
    let carried = carried_by(alloc, Operation::Id, operands)?;
    let mut records = Vec::new(alloc);
    records.push(Record::new(RecordBody::Id(carried)))?;
    Ok(records)
}

/// The records of a statement of a configuration deck, in a machine of these images.
///
/// Answers `malformed` where a value is, and M1 without memory.
pub fn statement_records(
    alloc: Global,
    images: &[ImageEntry],
    operation: Operation,
    operands: &Operands,
    malformed: Fault,
) -> Result<Vec<Record>, Fault>
    ensures { Gives (λ v. v.items) result (deck.statement_records malformed images.now operation operands.now) }
{
    match operation {
        Operation::Id => Ok(id_records(alloc, operands)?),
        Operation::Resource => resource_records(alloc, operands, malformed),
        Operation::Chpid => chpid_records(alloc, images, operands, malformed),
        Operation::Cntlunit => cntlunit_records(alloc, operands, malformed),
        Operation::Iodevice => iodevice_records(alloc, operands, malformed),
        _ => Ok(Vec::new(alloc)),
    }
}
