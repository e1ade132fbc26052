ghost use Rattle.std.specs.Prelude.{◌≡◌, ◌++◌, map, IfOk, OnOk};
ghost use Rattle.std.specs.List.{flat_map};
ghost use Rattle.iocm_deck_writer.specs.Canonical as meaning;
ghost use Rattle.iocm_record.specs.Meaning as fields;

use crate::CanonicalStatement;
use crate::chpid::chpid_operands;
use crate::device::put_iodevices;
use crate::operands::put_carried;
use crate::resource::put_resource;
use crate::unit::cntlunit_operands;
use iocm_record::{PathFields, Record, RecordBody, UnitFields};
use iocm_statements::Operation;
use std::alloc::{AllocError, Allocator, Global};

// The ID statement of a record, if it is one.
fn put_id<A: Allocator>(
    alloc: Global,
    entry: &Record<A>,
    statements: &mut Vec<CanonicalStatement>,
) -> Result<(), AllocError>
    ensures { OnOk result (statements.new.items ≡ statements.old.items ++ meaning.id_statements entry.now) }
{
    let RecordBody::Id(carried) = entry.body() else {
        return Ok(());
    };
    let mut operands = Vec::new(alloc);
    put_carried(alloc, &mut operands, carried.as_slice())?;
    statements.push(CanonicalStatement::new(Operation::Id, operands))?;
    Ok(())
}

fn chpid_statement<A: Allocator>(
    alloc: Global,
    path: &PathFields<A>,
) -> Result<CanonicalStatement, AllocError>
    ensures { IfOk result (λ s. s ≡ meaning.chpid_statement (fields.path_of path.now)) }
{
    let mut operands = chpid_operands(alloc, path)?;
    put_carried(alloc, &mut operands, path.carried.as_slice())?;
    Ok(CanonicalStatement::new(Operation::Chpid, operands))
}

fn cntlunit_statement<A: Allocator>(
    alloc: Global,
    unit: &UnitFields<A>,
) -> Result<CanonicalStatement, AllocError>
    ensures { IfOk result (λ s. s ≡ meaning.cntlunit_statement (fields.unit_of unit.now)) }
{
    let mut operands = cntlunit_operands(alloc, unit)?;
    put_carried(alloc, &mut operands, unit.carried.as_slice())?;
    Ok(CanonicalStatement::new(Operation::Cntlunit, operands))
}

// The statement of a channel path or of a control unit, if the record is one.
fn put_part<A: Allocator>(
    alloc: Global,
    entry: &Record<A>,
    statements: &mut Vec<CanonicalStatement>,
) -> Result<(), AllocError>
    ensures { OnOk result (statements.new.items ≡ statements.old.items ++ meaning.part_statements entry.now) }
{
    match entry.body() {
        RecordBody::Path(path) => statements.push(chpid_statement(alloc, path)?)?,
        RecordBody::Unit(unit) => statements.push(cntlunit_statement(alloc, unit)?)?,
        _ => {}
    }
    Ok(())
}

fn put_ids<A: Allocator>(
    alloc: Global,
    records: &[&Record<A>],
    statements: &mut Vec<CanonicalStatement>,
) -> Result<(), AllocError>
    ensures { OnOk result (statements.new.items
        ≡ statements.old.items ++ flat_map meaning.id_statements (map (λ k. k.now) records.now)) }
{
    for entry in records {
        put_id(alloc, entry, statements)?;
    }
    Ok(())
}

fn put_parts<A: Allocator>(
    alloc: Global,
    records: &[&Record<A>],
    statements: &mut Vec<CanonicalStatement>,
) -> Result<(), AllocError>
    ensures { OnOk result (statements.new.items
        ≡ statements.old.items ++ flat_map meaning.part_statements (map (λ k. k.now) records.now)) }
{
    for entry in records {
        put_part(alloc, entry, statements)?;
    }
    Ok(())
}

/// The canonical statements of records in the order of keys. Online records aren't written: they
/// are those of the access lists. Answers the lack of memory alone.
pub fn to_statements<A: Allocator>(
    alloc: Global,
    records: &[&Record<A>],
) -> Result<Vec<CanonicalStatement>, AllocError>
    ensures { IfOk result (λ statements. statements.items ≡ meaning.canonical (map (λ k. k.now) records.now)) }
{
    let mut statements = Vec::new(alloc);
    put_ids(alloc, records, &mut statements)?;
    put_resource(alloc, records, &mut statements)?;
    put_parts(alloc, records, &mut statements)?;
    put_iodevices(alloc, records, &mut statements)?;
    Ok(statements)
}
