ghost use Rattle.std.specs.Prelude.{◌≡◌, ◌≤◌, ◌+◌, IfOk, map};
ghost use Rattle.iocm_types.specs.Fault.{Gives};
ghost use Rattle.iocm_types.specs.declared.key.Key.TheVariants.{Online};
ghost use Rattle.iocm_statements.specs.declared.operation.Operation.TheVariants.{Iodevice};
ghost use Rattle.iocm_change_records.specs.Keys as meaning;

use crate::pairs::pairs_of;
use crate::resource_keys::resource_keys;
use crate::table::{has_bare_key, has_key_left_out, lacks_key};
use crate::verbs::verb_named;
use iocm_operands::Devices;
use iocm_record_reader::{chpid_path, device_set, statement_devices, unit_number};
use iocm_statements::{Operands, Operation, Statement};
use iocm_tree::Verb;
use iocm_types::{Chpid, Css, DevNo, Fault, Key, Name, Rule, SetNo};
use std::alloc::{AllocError, Global};

// What is wrong with a DELETE before its values are read: S3, S5 or S4.
fn key_fault(
    alloc: Global,
    operation: Operation,
    operands: &Operands,
) -> Result<Option<Rule>, AllocError>
    ensures { IfOk result (λ rule. rule ≡ meaning.key_fault operation operands.now) }
{
    if lacks_key(operation, operands) {
        return Ok(Some(Rule::S3));
    }
    if has_key_left_out(alloc, operation, operands)? {
        return Ok(Some(Rule::S5));
    }
    if has_bare_key(operation, operands) {
        return Ok(Some(Rule::S4));
    }
    Ok(None)
}

// A key for each device.
#[tactic(auto, using(iocm_record_reader::proofs::Places::places_more))]
fn device_keys(alloc: Global, set: SetNo, devices: Devices) -> Result<Vec<Key>, AllocError>
    requires { devices.first + devices.count ≤ 65536 }
    ensures { IfOk result (λ keys. keys.items ≡ meaning.device_keys set devices) }
{
    let mut keys = Vec::new(alloc);
    for place in 0..devices.count {
        let number = devices.first + place;
        keys.push(Key::Device(set, DevNo::new(number as u16)))?;
    }
    Ok(keys)
}

fn written_device_keys(
    alloc: Global,
    operands: &Operands,
    malformed: Fault,
) -> Result<Vec<Key>, Fault>
    ensures { Gives (λ v. v.items) result (meaning.keys_given malformed Iodevice operands.now) }
{
    let devices = statement_devices(alloc, operands, malformed)?;
    let set = device_set(operands, malformed)?;
    Ok(device_keys(alloc, set, devices)?)
}

// A key for each pair of a path and a name.
fn pair_keys(alloc: Global, css: Css, path: Chpid, names: &[Name]) -> Result<Vec<Key>, AllocError>
    ensures { IfOk result (λ keys. keys.items ≡ map (λ name. Online css path name) names.now) }
{
    let mut keys = Vec::new(alloc);
    for name in names {
        keys.push(Key::Online(css, path, *name))?;
    }
    Ok(keys)
}

fn keys_given(
    alloc: Global,
    operation: Operation,
    operands: &Operands,
    malformed: Fault,
) -> Result<Vec<Key>, Fault>
    ensures { Gives (λ v. v.items) result (meaning.keys_given malformed operation operands.now) }
{
    match operation {
        Operation::Id => Ok(vec![in alloc; Key::Id]?),
        Operation::Resource => resource_keys(alloc, operands, malformed),
        Operation::Chpid => {
            let path = chpid_path(alloc, operands, malformed)?;
            Ok(vec![in alloc; Key::Path(path.css, path.path)]?)
        }
        Operation::Cntlunit => {
            let unit = unit_number(operands, malformed)?;
            Ok(vec![in alloc; Key::Unit(unit)]?)
        }
        Operation::Iodevice => written_device_keys(alloc, operands, malformed),
        Operation::Online => {
            let pairs = pairs_of(alloc, operands, malformed)?;
            Ok(pair_keys(
                alloc,
                pairs.path.css,
                pairs.path.path,
                pairs.names.as_slice(),
            )?)
        }
        _ => Ok(Vec::new(alloc)),
    }
}

fn keys_or_fault(alloc: Global, statement: &Statement) -> Result<Vec<Key>, Fault>
    ensures { Gives (λ v. v.items) result
        (meaning.keys_unless (meaning.key_fault statement.now.operation statement.now.operands) statement.now) }
{
    let line = statement.line;
    let operation = statement.operation;
    match key_fault(alloc, operation, &statement.operands)? {
        Some(rule) => Err(Fault { rule, line }),
        None => {
            let malformed = Fault {
                rule: Rule::S4,
                line,
            };
            keys_given(alloc, operation, &statement.operands, malformed)
        }
    }
}

/// The keys of a DELETE statement, in the order of the text. It looks only at the operands that
/// give them: PATH, CUNUMBR, ADDRESS and SCHSET, PARTITION and MAXDEV. In DELETE RESOURCE an image
/// is found by its channel subsystem and its digit, a limit by its place, and without both the key
/// is that of what RESOURCE carries. (The forms are own.)
///
/// The first of these with the statement's line: S10, it is no DELETE; S3, an operand that is
/// required is missing; S5, a form that this product leaves out; S4, a malformed value. M1 comes
/// without memory.
pub fn keys_of(alloc: Global, statement: &Statement) -> Result<Vec<Key>, Fault>
    ensures { Gives (λ v. v.items) result (meaning.keys_of statement.now) }
{
    match verb_named(statement.name.as_slice()) {
        Some(Verb::Delete) => keys_or_fault(alloc, statement),
        _ => Err(Fault {
            rule: Rule::S10,
            line: statement.line,
        }),
    }
}
