ghost use Rattle.std.specs.Prelude.{◌≡◌, ◌++◌, codes, map, IfOk, OnOk};
ghost use Rattle.std.specs.List.{flat_map};
ghost use Rattle.iocm_operands.specs.Device.{devices_text};
ghost use Rattle.iocm_deck_writer.specs.Canonical.{canonical};
ghost use Rattle.iocm_deck_writer.specs.Device.{set_operand};
ghost use Rattle.iocm_deck_writer.specs.Statement.{valued};
ghost use Rattle.iocm_difference_writer.specs.Runs.{action_in, actions_in};
ghost use Rattle.iocm_difference_writer.specs.Written as meaning;

use iocm_deck_writer::{CanonicalStatement, to_statements};
use iocm_record::{Carried, Record};
use iocm_statements::Operation;
use iocm_tree::Edit;
use iocm_tree_writer::{path_operand, valued};
use iocm_types::{Chpid, Css, DevNo, Key, Name, SetNo, Text};
use iocm_values::{list_text, names_text, printed};
use std::alloc::{AllocError, Allocator, Global};

/// So many devices, as they are written.
fn devices_text(alloc: Global, first: DevNo, count: usize) -> Result<Text, AllocError>
    ensures { IfOk result (λ text. text ≡ devices_text (record { first = first; count = count })) }
{
    let items = vec![in alloc; printed(alloc, &first)?, printed(alloc, &count)?]?;
    list_text(alloc, &items)
}

/// Puts SCHSET behind the other operands, unless it is set 0.
fn put_set(alloc: Global, operands: &mut Vec<Carried>, set: SetNo) -> Result<(), AllocError>
    ensures { OnOk result
        (operands.new.items ≡ operands.old.items ++ valued (codes "SCHSET") (set_operand set)) }
{
    if set.number() == 0 {
        return Ok(());
    }
    operands.push(valued(alloc, b"SCHSET", printed(alloc, &set)?)?)?;
    Ok(())
}

/// The statement of so many devices by number alone.
pub(crate) fn devices_statement(
    alloc: Global,
    set: SetNo,
    first: DevNo,
    count: usize,
) -> Result<CanonicalStatement, AllocError>
    ensures { IfOk result (λ s. s ≡ meaning.devices_statement set first count) }
{
    let devices = valued(alloc, b"ADDRESS", devices_text(alloc, first, count)?)?;
    let mut operands = vec![in alloc; devices]?;
    put_set(alloc, &mut operands, set)?;
    Ok(CanonicalStatement::new(Operation::Iodevice, operands))
}

/// Puts the name of a pair behind other names.
fn put_name(key: Key, names: &mut Vec<Name>) -> Result<(), AllocError>
    ensures { OnOk result (names.new.items ≡ names.old.items ++ meaning.name_in key) }
{
    if let Key::Online(_, _, name) = key {
        names.push(name)?;
    }
    Ok(())
}

/// The names of the pairs of a run.
fn names_in<A: Allocator>(alloc: Global, run: &[Edit<A>]) -> Result<Vec<Name>, AllocError>
    ensures { IfOk result (λ names. names.items ≡ meaning.names_in (actions_in run.now)) }
{
    let mut names = Vec::new(alloc);
    for edit in run {
        put_name(edit.key(), &mut names)?;
    }
    Ok(names)
}

/// The statement of a run of pairs of a path.
pub(crate) fn pairs_statement<A: Allocator>(
    alloc: Global,
    css: Css,
    path: Chpid,
    run: &[Edit<A>],
) -> Result<CanonicalStatement, AllocError>
    ensures { IfOk result (λ s. s ≡ meaning.pairs_statement css path (meaning.names_in (actions_in run.now))) }
{
    let names = names_in(alloc, run)?;
    let operands = vec![in alloc;
        path_operand(alloc, css, path)?,
        valued(alloc, b"PARTITION", names_text(alloc, &names)?)?,
    ]?;
    Ok(CanonicalStatement::new(Operation::Online, operands))
}

/// Puts the record that an edit leaves behind others, if it leaves one.
fn put_left<'a, A: Allocator>(
    edit: &'a Edit<A>,
    records: &mut Vec<&'a Record<A>>,
) -> Result<(), AllocError>
    ensures { OnOk result (map (λ k. k.now) records.new.items
        ≡ map (λ k. k.now) records.old.items ++ meaning.left_by (action_in edit.now)) }
{
    if let Some(entry) = edit.after() {
        records.push(entry)?;
    }
    Ok(())
}

/// The records that a run leaves.
fn records_left<'a, A: Allocator>(
    alloc: Global,
    run: &'a [Edit<A>],
) -> Result<Vec<&'a Record<A>>, AllocError>
    ensures { IfOk result (λ records. map (λ k. k.now) records.items
        ≡ flat_map meaning.left_by (actions_in run.now)) }
{
    let mut records = Vec::new(alloc);
    for edit in run {
        put_left(edit, &mut records)?;
    }
    Ok(records)
}

/// The statements of the records that a run leaves, as a deck has them.
pub(crate) fn statements_left<A: Allocator>(
    alloc: Global,
    run: &[Edit<A>],
) -> Result<Vec<CanonicalStatement>, AllocError>
    ensures { IfOk result (λ statements. statements.items
        ≡ canonical (flat_map meaning.left_by (actions_in run.now))) }
{
    let records = records_left(alloc, run)?;
    let statements = to_statements(alloc, &records)?;
    Ok(statements)
}
