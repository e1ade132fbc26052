ghost use Rattle.std.specs.Prelude.{◌≡◌, [], ◌∷◌, IfOk};
ghost use Rattle.iocm_types.specs.Fault.{Gives};
ghost use Rattle.iocm_record.specs.Meaning.{unit_of};
ghost use Rattle.iocm_record_reader.specs.UnitRecords as meaning;

use crate::operands::carried_by;
use iocm_operands::{all_addresses, cuadd_of, links_of, number_of, paths_of, ranges_of};
use iocm_record::{Record, RecordBody, UnitFields};
use iocm_statements::{Operands, Operation, or_malformed};
use iocm_types::{CssLink, CssPath, Fault, List, UnitNo, UnitRange};
use iocm_values::Value;
use std::alloc::Global;

/// The number of CUNUMBR, which is required. Answers `malformed` where it isn't there or isn't one.
pub fn unit_number(operands: &Operands, malformed: Fault) -> Result<UnitNo, Fault>
    ensures { Gives (λ n. n) result (meaning.unit_number malformed operands.now) }
{
    let text = operands.get(b"CUNUMBR").ok_or(malformed)?;
    number_of(Value::new(text)).ok_or(malformed)
}

fn unit_paths(alloc: Global, operands: &Operands, malformed: Fault) -> Result<Vec<CssPath>, Fault>
    ensures { Gives (λ v. v.items) result (meaning.unit_paths malformed operands.now) }
{
    match operands.get(b"PATH") {
        Some(text) => or_malformed(paths_of(alloc, Value::new(text)), malformed),
        None => Ok(Vec::new(alloc)),
    }
}

fn unit_ranges(
    alloc: Global,
    operands: &Operands,
    malformed: Fault,
) -> Result<Vec<UnitRange>, Fault>
    ensures { Gives (λ v. v.items) result (meaning.unit_ranges malformed operands.now) }
{
    match operands.get(b"UNITADD") {
        Some(text) => or_malformed(ranges_of(alloc, Value::new(text)), malformed),
        None => Ok(all_addresses(alloc)?),
    }
}

fn unit_links(alloc: Global, operands: &Operands, malformed: Fault) -> Result<Vec<CssLink>, Fault>
    ensures { Gives (λ v. v.items) result (meaning.unit_links malformed operands.now) }
{
    match operands.get(b"LINK") {
        Some(text) => or_malformed(links_of(alloc, Value::new(text)), malformed),
        None => Ok(Vec::new(alloc)),
    }
}

fn unit_cuadd(operands: &Operands, malformed: Fault) -> Result<Option<u8>, Fault>
    ensures { Gives (λ a. a) result (meaning.unit_cuadd malformed operands.now) }
{
    match operands.get(b"CUADD") {
        Some(text) => {
            let cuadd = cuadd_of(Value::new(text)).ok_or(malformed)?;
            Ok(Some(cuadd))
        }
        None => Ok(None),
    }
}

fn unit_fields(alloc: Global, operands: &Operands, malformed: Fault) -> Result<UnitFields, Fault>
    ensures { Gives (λ u. unit_of u) result (meaning.unit_fields malformed operands.now) }
{
    let number = unit_number(operands, malformed)?;
    let paths = unit_paths(alloc, operands, malformed)?;
    let ranges = unit_ranges(alloc, operands, malformed)?;
    let links = unit_links(alloc, operands, malformed)?;
    let cuadd = unit_cuadd(operands, malformed)?;
    Ok(UnitFields {
        number,
        paths: List::from_vec(paths),
        ranges: List::from_vec(ranges),
        links: List::from_vec(links),
        cuadd,
        carried: carried_by(alloc, Operation::Cntlunit, operands)?,
    })
}

/// The record of a CNTLUNIT statement. Answers `malformed` where a value is, and M1 without memory.
pub fn cntlunit_records(
    alloc: Global,
    operands: &Operands,
    malformed: Fault,
) -> Result<Vec<Record>, Fault>
    ensures { Gives (λ v. v.items) result (meaning.cntlunit_records malformed operands.now) }
{
    let unit = unit_fields(alloc, operands, malformed)?;
    let mut records = Vec::new(alloc);
    records.push(Record::of_unit(alloc, unit)?)?;
    Ok(records)
}
