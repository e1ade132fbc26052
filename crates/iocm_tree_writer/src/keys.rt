ghost use Rattle.std.specs.Prelude.{◌≡◌, ◌∷◌, ◌++◌, [], IfOk, OnOk, codes};
ghost use Rattle.iocm_types.specs.declared.key.Key.TheVariants as key;
ghost use Rattle.iocm_operands.specs.Device.{devices_text};
ghost use Rattle.iocm_operands.specs.Resource.{images_text};
ghost use Rattle.iocm_deck_writer.specs.Device.{set_operand};
ghost use Rattle.iocm_deck_writer.specs.Statement as statements;
ghost use Rattle.iocm_tree_writer.specs.Leaves as meaning;

use crate::operands::{online_statement, path_operand, valued};
use crate::records::record_statement;
use iocm_deck_writer::CanonicalStatement;
use iocm_record::{Carried, Record, RecordBody};
use iocm_statements::Operation;
use iocm_types::{Css, DevNo, Key, Mif, SetNo, Text, UnitNo};
use iocm_values::{CssText, by_css_text, list_text, printed};
use std::alloc::{AllocError, Global};

// The statement with one operand.
fn with_operand(
    alloc: Global,
    operation: Operation,
    operand: Carried,
) -> Result<CanonicalStatement, AllocError>
    ensures { IfOk result (λ s. s ≡ record { operation = operation; operands = operand ∷ [] }) }
{
    let operands = vec![in alloc; operand]?;
    Ok(CanonicalStatement::new(operation, operands))
}

// PARTITION of an image whose name isn't said: ((CSS(0),(*,1))).
fn image_operand(alloc: Global, css: Css, mif: Mif) -> Result<Carried, AllocError>
    ensures { IfOk result (λ operand. operand
        ≡ statements.keyed (codes "PARTITION") (images_text (record { css = css; mif = mif; name = codes "*" } ∷ []))) }
{
    let parts = vec![in alloc; Text::from_slice(alloc, b"*")?, printed(alloc, &mif)?]?;
    let item = CssText {
        css,
        text: list_text(alloc, &parts)?,
    };
    valued(alloc, b"PARTITION", by_css_text(alloc, &[item])?)
}

fn image_statement(alloc: Global, css: Css, mif: Mif) -> Result<CanonicalStatement, AllocError>
    ensures { IfOk result (λ s. s ≡ meaning.key_statement (key.Image css mif)) }
{
    with_operand(alloc, Operation::Resource, image_operand(alloc, css, mif)?)
}

// The statement of the limit 0.
fn limit_statement(alloc: Global, css: Css, set: SetNo) -> Result<CanonicalStatement, AllocError>
    ensures { IfOk result (λ s. s ≡ meaning.key_statement (key.Limit css set)) }
{
    let entry: Record = Record::new(RecordBody::Limit(css, set, 0));
    record_statement(alloc, &entry)
}

fn unit_statement(alloc: Global, unit: UnitNo) -> Result<CanonicalStatement, AllocError>
    ensures { IfOk result (λ s. s ≡ meaning.key_statement (key.Unit unit)) }
{
    let number = valued(alloc, b"CUNUMBR", printed(alloc, &unit)?)?;
    with_operand(alloc, Operation::Cntlunit, number)
}

// ADDRESS of one device.
fn address_operand(alloc: Global, number: DevNo) -> Result<Carried, AllocError>
    ensures { IfOk result (λ operand. operand
        ≡ statements.keyed (codes "ADDRESS") (devices_text (record { first = number; count = 1 }))) }
{
    let count = 1usize;
    let items = vec![in alloc; printed(alloc, &number)?, printed(alloc, &count)?]?;
    valued(alloc, b"ADDRESS", list_text(alloc, &items)?)
}

// SCHSET, unless it is set 0, behind the other operands.
fn put_set(alloc: Global, operands: &mut Vec<Carried>, set: SetNo) -> Result<(), AllocError>
    ensures { OnOk result
        (operands.new.items ≡ operands.old.items ++ statements.valued (codes "SCHSET") (set_operand set)) }
{
    if set.number() == 0 {
        return Ok(());
    }
    operands.push(valued(alloc, b"SCHSET", printed(alloc, &set)?)?)?;
    Ok(())
}

fn device_statement(
    alloc: Global,
    set: SetNo,
    number: DevNo,
) -> Result<CanonicalStatement, AllocError>
    ensures { IfOk result (λ s. s ≡ meaning.key_statement (key.Device set number)) }
{
    let mut operands = vec![in alloc; address_operand(alloc, number)?]?;
    put_set(alloc, &mut operands, set)?;
    Ok(CanonicalStatement::new(Operation::Iodevice, operands))
}

/// The statement of a key alone. Answers the lack of memory alone.
pub fn key_statement(alloc: Global, key: Key) -> Result<CanonicalStatement, AllocError>
    ensures { IfOk result (λ s. s ≡ meaning.key_statement key) }
{
    match key {
        Key::Id => Ok(CanonicalStatement::new(Operation::Id, Vec::new(alloc))),
        Key::Resource => Ok(CanonicalStatement::new(Operation::Resource, Vec::new(alloc))),
        Key::Image(css, mif) => image_statement(alloc, css, mif),
        Key::Limit(css, set) => limit_statement(alloc, css, set),
        Key::Path(css, number) => {
            with_operand(alloc, Operation::Chpid, path_operand(alloc, css, number)?)
        }
        Key::Unit(unit) => unit_statement(alloc, unit),
        Key::Device(set, number) => device_statement(alloc, set, number),
        Key::Online(css, number, name) => online_statement(alloc, css, number, name),
    }
}
