ghost use Rattle.std.specs.Prelude.{◌≡◌, ◌≤◌, ◌<◌, ◌+◌, map, IfOk, IfSome};
ghost use Rattle.iocm_types.specs.Fault.{Gives};
ghost use Rattle.iocm_record_reader.specs.DeviceRecords as meaning;
ghost use Rattle.iocm_record.specs.Meaning.{device_of};

use crate::operands::carried_by;
use iocm_operands::{Devices, candidates_of, devices_of, first_address, set_of, units_of};
use iocm_record::{DeviceFields, DeviceLists, Record, RecordBody, copy_device};
use iocm_statements::{Operands, Operation, or_malformed};
use iocm_types::{DevNo, Fault, List, Name, SetNo, UnitNo};
use iocm_values::Value;
use std::alloc::{AllocError, Global};

/// The devices of ADDRESS, which is required. Answers `malformed` where it isn't there or has none
/// of its forms, and M1 without memory.
pub fn statement_devices(
    alloc: Global,
    operands: &Operands,
    malformed: Fault,
) -> Result<Devices, Fault>
    ensures value { Gives (λ d. d) result (meaning.statement_devices malformed operands.now) }
    ensures within { IfOk result (λ d. (d.first + d.count ≤ 65536) × (d.count ≤ 4096)) }
{
    let text = operands.get(b"ADDRESS").ok_or(malformed)?;
    or_malformed(devices_of(alloc, Value::new(text)), malformed)
}

fn device_units(alloc: Global, operands: &Operands, malformed: Fault) -> Result<Vec<UnitNo>, Fault>
    ensures { Gives (λ v. v.items) result (meaning.device_units malformed operands.now) }
{
    match operands.get(b"CUNUMBR") {
        Some(text) => or_malformed(units_of(alloc, Value::new(text)), malformed),
        None => Ok(Vec::new(alloc)),
    }
}

fn device_address(operands: &Operands, count: u32, malformed: Fault) -> Result<Option<u32>, Fault>
    requires { count ≤ 4096 }
    ensures value { Gives (λ a. a) result (meaning.device_address malformed count operands.now) }
    ensures within { IfOk result (λ a. IfSome a (λ n. n + count ≤ 256)) }
{
    match operands.get(b"UNITADD") {
        Some(text) => {
            let first = first_address(count, Value::new(text)).ok_or(malformed)?;
            Ok(Some(first))
        }
        None => Ok(None),
    }
}

/// The subchannel set of SCHSET, or set 0 where it isn't there. Answers `malformed` where it is
/// none.
pub fn device_set(operands: &Operands, malformed: Fault) -> Result<SetNo, Fault>
    ensures { Gives (λ s. s) result (meaning.device_set malformed operands.now) }
{
    match operands.get(b"SCHSET") {
        Some(text) => set_of(Value::new(text)).ok_or(malformed),
        None => Ok(SetNo::FIRST),
    }
}

fn device_candidates(
    alloc: Global,
    operands: &Operands,
    malformed: Fault,
) -> Result<Option<List<Name>>, Fault>
    ensures { Gives (λ c. c) result (meaning.device_candidates malformed operands.now) }
{
    match operands.get(b"PARTITION") {
        Some(text) => {
            let candidates = or_malformed(candidates_of(alloc, Value::new(text)), malformed)?;
            Ok(Some(candidates))
        }
        None => Ok(None),
    }
}

// The unit address of the device at a place.
fn address_at(first: Option<u32>, place: u32, number: u32) -> u8
    requires { IfSome first (λ n. n + place < 256) }
    ensures { result ≡ meaning.address_at first place number }
{
    match first {
        Some(first) => (first + place) as u8,
        None => (number % 256) as u8,
    }
}

fn device_record(
    alloc: Global,
    first: &DeviceFields,
    address: Option<u32>,
    place: u32,
) -> Result<Record, AllocError>
    requires number { first.now.number + place < 65536 }
    requires address { IfSome address (λ n. n + place < 256) }
    ensures { IfOk result (λ r. r ≡ meaning.device_record (device_of first.now) address place) }
{
    let number = u32::from(first.number.number()) + place;
    let mut device = copy_device(first, alloc)?;
    device.number = DevNo::new(number as u16);
    device.unit_address = address_at(address, place, number);
    Ok(Record::new(RecordBody::Device(device)))
}

// The record of a device that is alone in its statement: it takes the fields as they are.
fn only_record(first: DeviceFields, address: Option<u32>) -> Record
    requires { IfSome address (λ n. n < 256) }
    ensures { result ≡ meaning.device_record (device_of first) address 0 }
{
    let unit_address = address_at(address, 0, u32::from(first.number.number()));
    Record::new(RecordBody::Device(DeviceFields {
        unit_address,
        ..first
    }))
}

// The same, as the only record of its statement.
fn only_records(
    alloc: Global,
    first: DeviceFields,
    address: Option<u32>,
) -> Result<Vec<Record>, AllocError>
    requires { IfSome address (λ n. n < 256) }
    ensures { IfOk result (λ records. records.items ≡ meaning.device_records (device_of first) address 1) }
{
    let mut records = Vec::new(alloc);
    records.push(only_record(first, address))?;
    Ok(records)
}

#[tactic(auto, using(crate::proofs::Places::places_more))]
fn device_records(
    alloc: Global,
    first: &DeviceFields,
    address: Option<u32>,
    count: u32,
) -> Result<Vec<Record>, AllocError>
    requires number { first.now.number + count ≤ 65536 }
    requires address { IfSome address (λ n. n + count ≤ 256) }
    ensures { IfOk result (λ records. records.items ≡ meaning.device_records (device_of first.now) address count) }
{
    let mut records = Vec::with_capacity(alloc, count as usize)?;
    for place in 0..count {
        records.push(device_record(alloc, first, address, place)?)?;
    }
    Ok(records)
}

/// The records of an IODEVICE statement, one for each device. Answers `malformed` where a value is,
/// and M1 without memory.
pub fn iodevice_records(
    alloc: Global,
    operands: &Operands,
    malformed: Fault,
) -> Result<Vec<Record>, Fault>
    ensures { Gives (λ v. v.items) result (meaning.iodevice_records malformed operands.now) }
{
    let devices = statement_devices(alloc, operands, malformed)?;
    let units = device_units(alloc, operands, malformed)?;
    let address = device_address(operands, devices.count, malformed)?;
    let set = device_set(operands, malformed)?;
    let candidates = device_candidates(alloc, operands, malformed)?;
    let carried = carried_by(alloc, Operation::Iodevice, operands)?;
    let first = DeviceFields {
        set,
        number: DevNo::new(devices.first as u16),
        unit_address: 0,
        lists: DeviceLists::new(alloc, units, candidates, carried)?,
    };
    if devices.count == 1 {
        return Ok(only_records(alloc, first, address)?);
    }
    Ok(device_records(alloc, &first, address, devices.count)?)
}
