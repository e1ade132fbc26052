ghost use Rattle.std.specs.Prelude.{◌≡◌, ◌<◌, ◌^◌, ◌++◌, map, IfOk, OnOk};
ghost use Rattle.std.specs.Cmp.Lexicographic.{pointwise};
ghost use Rattle.std.specs.List.{flat_map};
ghost use Rattle.std.specs.Option.{option_copied, option_map};
ghost use Rattle.iocm_operands.specs.Device as operand;
ghost use Rattle.iocm_record.specs.Meaning as fields;
ghost use Rattle.iocm_values.specs.NameSet.{names_text};
ghost use Rattle.iocm_deck_writer.specs.Device as meaning;
ghost use Rattle.iocm_deck_writer.specs.Statement.{if_any};

use crate::CanonicalStatement;
use crate::operands::{put_carried, put_valued};
use crate::unit::two_digits;
use iocm_record::{Carried, DeviceFields, Record, RecordBody};
use iocm_statements::Operation;
use iocm_types::{DevNo, List, Name, SetNo, Text, UnitNo};
use iocm_values::{list_text, names_text, printed};
use std::alloc::{AllocError, Allocator, Global};

// The same keyword, or none.
fn same_keyword<A: Allocator>(a: Option<&Text<A>>, b: Option<&Text<A>>) -> bool
    ensures { result ≡ meaning.same_keyword (option_map (λ k. k.now) a.entry) (option_map (λ k. k.now) b.entry) }
{
    match (a, b) {
        (None, None) => true,
        (Some(a), Some(b)) => a.as_slice() == b.as_slice(),
        _ => false,
    }
}

fn same_operand<A: Allocator>(a: &Carried<A>, b: &Carried<A>) -> bool
    ensures { result ≡ meaning.same_operand a.now b.now }
{
    same_keyword(a.keyword(), b.keyword()) && a.text().as_slice() == b.text().as_slice()
}

// The same operands in the same order.
#[tactic(auto, using(crate::proofs::Rest::same_steps))]
fn same_operands<A: Allocator>(a: &[Carried<A>], b: &[Carried<A>]) -> bool
    ensures { result ≡ pointwise meaning.same_operand a.now b.now }
{
    if a.len() != b.len() {
        return false;
    }
    for index in 0..a.len() {
        if !same_operand(&a[index], &b[index]) {
            return false;
        }
    }
    true
}

// The same candidates, or no list of them.
fn same_candidates<A: Allocator>(a: Option<&List<Name, A>>, b: Option<&List<Name, A>>) -> bool
    ensures { result ≡ meaning.same_candidates (option_copied a.entry) (option_copied b.entry) }
{
    match (a, b) {
        (None, None) => true,
        (Some(a), Some(b)) => a.as_slice() == b.as_slice(),
        _ => false,
    }
}

fn are_alike<A: Allocator>(a: &DeviceFields<A>, b: &DeviceFields<A>) -> bool
    ensures { result ≡ meaning.are_alike (fields.device_of a.now) (fields.device_of b.now) }
{
    a.set == b.set
        && a.lists.units() == b.lists.units()
        && same_candidates(a.lists.candidates(), b.lists.candidates())
        && same_operands(a.lists.carried(), b.lists.carried())
}

/// Whether a device is the next of a run of so many: its number and its unit address follow, and all
/// else is as the first has it.
pub fn continues<A: Allocator>(
    first: &DeviceFields<A>,
    count: usize,
    device: &DeviceFields<A>,
) -> bool
    requires { count < 2 ^ 63 }
    ensures { result ≡ meaning.continues (record { first = fields.device_of first.now; count = count })
        (fields.device_of device.now) }
{
    let number = usize::from(first.number.number());
    let address = usize::from(first.unit_address);
    usize::from(device.number.number()) == number + count
        && usize::from(device.unit_address) == address + count
        && are_alike(first, device)
}

// So many devices that follow each other, as they are written.
fn devices_text(alloc: Global, first: DevNo, count: usize) -> Result<Text, AllocError>
    ensures { IfOk result (λ text. text ≡ operand.devices_text (record { first = first; count = count })) }
{
    let items = vec![in alloc; printed(alloc, &first)?, printed(alloc, &count)?]?;
    list_text(alloc, &items)
}

fn units_text(alloc: Global, units: &[UnitNo]) -> Result<Text, AllocError>
    ensures { IfOk result (λ text. text ≡ operand.units_text units.now) }
{
    let mut items = Vec::new(alloc);
    for unit in units {
        items.push(printed(alloc, unit)?)?;
    }
    list_text(alloc, &items)
}

fn units_value(alloc: Global, units: &[UnitNo]) -> Result<Option<Text>, AllocError>
    ensures { IfOk result (λ text. text ≡ if_any units.now (operand.units_text units.now)) }
{
    if units.is_empty() {
        return Ok(None);
    }
    Ok(Some(units_text(alloc, units)?))
}

fn set_value(alloc: Global, set: SetNo) -> Result<Option<Text>, AllocError>
    ensures { IfOk result (λ text. text ≡ meaning.set_operand set) }
{
    if set.number() == 0 {
        return Ok(None);
    }
    Ok(Some(printed(alloc, &set)?))
}

fn candidates_value<A: Allocator>(
    alloc: Global,
    candidates: Option<&List<Name, A>>,
) -> Result<Option<Text>, AllocError>
    ensures { IfOk result (λ text. text ≡ option_map names_text (option_copied candidates.entry)) }
{
    match candidates {
        None => Ok(None),
        Some(names) => Ok(Some(names_text(alloc, names.as_slice())?)),
    }
}

// The operands of a run of so many devices, without what it carries.
fn iodevice_operands<A: Allocator>(
    alloc: Global,
    first: &DeviceFields<A>,
    count: usize,
) -> Result<Vec<Carried>, AllocError>
    ensures { IfOk result (λ operands. operands.items
        ≡ meaning.iodevice_operands (record { first = fields.device_of first.now; count = count })) }
{
    let mut operands = Vec::new(alloc);
    let devices = devices_text(alloc, first.number, count)?;
    put_valued(alloc, &mut operands, b"ADDRESS", Some(devices))?;
    let units = units_value(alloc, first.lists.units())?;
    put_valued(alloc, &mut operands, b"CUNUMBR", units)?;
    let address = two_digits(alloc, first.unit_address)?;
    put_valued(alloc, &mut operands, b"UNITADD", Some(address))?;
    let set = set_value(alloc, first.set)?;
    put_valued(alloc, &mut operands, b"SCHSET", set)?;
    let candidates = candidates_value(alloc, first.lists.candidates())?;
    put_valued(alloc, &mut operands, b"PARTITION", candidates)?;
    Ok(operands)
}

// The statement of a run of so many devices.
fn iodevice_statement<A: Allocator>(
    alloc: Global,
    first: &DeviceFields<A>,
    count: usize,
) -> Result<CanonicalStatement, AllocError>
    ensures { IfOk result
        (λ s. s ≡ meaning.iodevice_statement (record { first = fields.device_of first.now; count = count })) }
{
    let mut operands = iodevice_operands(alloc, first, count)?;
    put_carried(alloc, &mut operands, first.lists.carried())?;
    Ok(CanonicalStatement::new(Operation::Iodevice, operands))
}

// The device of a record, if it is one, behind what was found.
fn put_device<'a, A: Allocator>(
    entry: &'a Record<A>,
    devices: &mut Vec<&'a DeviceFields<A>>,
) -> Result<(), AllocError>
    ensures { OnOk result (map (λ d. fields.device_of d.now) devices.new.items
        ≡ map (λ d. fields.device_of d.now) devices.old.items ++ meaning.devices_of entry.now) }
{
    match entry.body() {
        RecordBody::Device(device) => devices.push(device)?,
        _ => {}
    }
    Ok(())
}

fn devices_in<'a, A: Allocator>(
    alloc: Global,
    records: &[&'a Record<A>],
) -> Result<Vec<&'a DeviceFields<A>>, AllocError>
    ensures { IfOk result (λ devices. map (λ d. fields.device_of d.now) devices.items
        ≡ flat_map meaning.devices_of (map (λ k. k.now) records.now)) }
{
    let mut devices = Vec::new(alloc);
    for entry in records {
        put_device(*entry, &mut devices)?;
    }
    Ok(devices)
}

// The statements of a device and those behind it in the order of their keys, behind what was found.
fn put_runs<A: Allocator>(
    alloc: Global,
    first: &DeviceFields<A>,
    devices: &[&DeviceFields<A>],
    statements: &mut Vec<CanonicalStatement>,
) -> Result<(), AllocError>
    ensures { OnOk result (statements.new.items ≡ statements.old.items ++ map meaning.iodevice_statement
        (meaning.runs_from (record { first = fields.device_of first.now; count = 1 })
        (map (λ d. fields.device_of d.now) devices.now))) }
{
    let mut run = first;
    let mut count = 1;
    for device in devices {
        if continues(run, count, device) {
            count += 1;
            continue;
        }
        statements.push(iodevice_statement(alloc, run, count)?)?;
        run = *device;
        count = 1;
    }
    statements.push(iodevice_statement(alloc, run, count)?)?;
    Ok(())
}

/// Puts the IODEVICE statements of these records behind what was found: devices that follow each
/// other are joined, as many as can be.
pub fn put_iodevices<A: Allocator>(
    alloc: Global,
    records: &[&Record<A>],
    statements: &mut Vec<CanonicalStatement>,
) -> Result<(), AllocError>
    ensures { OnOk result (statements.new.items
        ≡ statements.old.items ++ meaning.iodevice_statements (map (λ k. k.now) records.now)) }
{
    let devices = devices_in(alloc, records)?;
    if devices.is_empty() {
        return Ok(());
    }
    let (_, others) = devices.split_at(1);
    put_runs(alloc, devices[0], others, statements)
}
