ghost use Rattle.std.specs.Prelude.{◌≡◌, ◌++◌, map, IfOk, OnOk};
ghost use Rattle.iocm_types.specs.Fault.{Gives};
ghost use Rattle.iocm_model.specs.Machine.Record.{image, limit};
ghost use Rattle.iocm_record_reader.specs.ResourceRecords as meaning;

use crate::operands::carried_by;
use iocm_operands::{ImageEntry, LimitEntry, images_of, limits_of};
use iocm_record::{Carried, Record, RecordBody};
use iocm_statements::{Operands, Operation, or_malformed};
use iocm_types::Fault;
use iocm_values::Value;
use std::alloc::{AllocError, Global};

fn resource_images(
    alloc: Global,
    operands: &Operands,
    malformed: Fault,
) -> Result<Vec<ImageEntry>, Fault>
    ensures { Gives (λ v. v.items) result (meaning.resource_images malformed operands.now) }
{
    match operands.get(b"PARTITION") {
        Some(text) => or_malformed(images_of(alloc, Value::new(text)), malformed),
        None => Ok(Vec::new(alloc)),
    }
}

fn resource_limits(
    alloc: Global,
    operands: &Operands,
    malformed: Fault,
) -> Result<Vec<LimitEntry>, Fault>
    ensures { Gives (λ v. v.items) result (meaning.resource_limits malformed operands.now) }
{
    match operands.get(b"MAXDEV") {
        Some(text) => or_malformed(limits_of(alloc, Value::new(text)), malformed),
        None => Ok(Vec::new(alloc)),
    }
}

fn carried_records(alloc: Global, carried: Vec<Carried>) -> Result<Vec<Record>, AllocError>
    ensures { IfOk result (λ records. records.items ≡ meaning.carried_records carried.items) }
{
    let mut records = Vec::new(alloc);
    if !carried.is_empty() {
        records.push(Record::new(RecordBody::Resource(carried)))?;
    }
    Ok(records)
}

fn add_images(records: &mut Vec<Record>, images: &[ImageEntry]) -> Result<(), AllocError>
    ensures { OnOk result (records.new.items ≡ records.old.items ++ map image images.now) }
{
    for image in images {
        records.push(Record::new(RecordBody::Image(image.css, image.mif, image.name)))?;
    }
    Ok(())
}

fn add_limits(records: &mut Vec<Record>, limits: &[LimitEntry]) -> Result<(), AllocError>
    ensures { OnOk result (records.new.items ≡ records.old.items ++ map limit limits.now) }
{
    for limit in limits {
        records.push(Record::new(RecordBody::Limit(limit.css, limit.set, limit.limit)))?;
    }
    Ok(())
}

/// The records of a RESOURCE statement: what it carries, if it carries anything, its images and its
/// limits. Answers `malformed` where a value is, and M1 without memory.
pub fn resource_records(
    alloc: Global,
    operands: &Operands,
    malformed: Fault,
) -> Result<Vec<Record>, Fault>
    ensures { Gives (λ v. v.items) result (meaning.resource_records malformed operands.now) }
{
    let images = resource_images(alloc, operands, malformed)?;
    let limits = resource_limits(alloc, operands, malformed)?;
    let carried = carried_by(alloc, Operation::Resource, operands)?;
    let mut records = carried_records(alloc, carried)?;
    add_images(&mut records, &images)?;
    add_limits(&mut records, &limits)?;
    Ok(records)
}
