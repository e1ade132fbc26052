ghost use Rattle.std.specs.Prelude.{◌≡◌, ◌+◌, [], nat_lt, filter, map, IfOk, OnOk};
ghost use Rattle.std.specs.List.{flat_map};
ghost use Rattle.iocm_objects.specs.Runs.{run_of};
ghost use Rattle.iocm_offon_text.specs.Lines as meaning;
ghost use Rattle.iocm_offon.specs.UnderKeys.{under};

use crate::line::{Line, line_of, put_line};
use iocm_impact::NamedImage;
use iocm_objects::Run;
use iocm_offon::{Group, Reason, by_object, reasons_under};
use iocm_plan::DeviceRun;
use iocm_table::Table;
use iocm_types::{DevNo, Key, SetNo};
use std::alloc::{AllocError, Global};

/// The lines of runs of objects that are reasons. The reasons of each are found by a search.
///
/// `AllocError` (M1): memory ran out.
pub(crate) fn lines_among(
    alloc: Global,
    images: &[NamedImage],
    runs: &[DeviceRun],
    reasons: &[Reason],
    objects: &[Run<'_>],
) -> Result<Vec<Line>, AllocError>
    ensures { IfOk result (λ lines. lines.items
        ≡ meaning.lines_from images.now runs.now reasons.now [] (map run_of objects.now)) }
{
    let table = by_object(alloc, reasons)?;
    let mut lines = Vec::new(alloc);
    for object in objects {
        put_run(&mut lines, alloc, images, runs, &table, object)?;
    }
    Ok(lines)
}

/// Puts the line of a run of objects to others, if it is a reason.
fn put_run(
    lines: &mut Vec<Line>,
    alloc: Global,
    images: &[NamedImage],
    runs: &[DeviceRun],
    table: &Table<Key, Group>,
    object: &Run<'_>,
) -> Result<(), AllocError>
    ensures { OnOk result (lines.new.items ≡ meaning.with_run images.now lines.old.items (run_of object.now)
        (meaning.own_by (under table.now) runs.now object.now.count object.now.first.now.key)) }
{
    let own = own_reasons(alloc, runs, table, &object.first.key, object.count)?;
    put_reasons(lines, alloc, images, object, own)
}

/// Puts the line of a run of objects with its reasons to others, if there are any.
fn put_reasons(
    lines: &mut Vec<Line>,
    alloc: Global,
    images: &[NamedImage],
    object: &Run<'_>,
    own: Vec<Reason>,
) -> Result<(), AllocError>
    ensures { OnOk result (lines.new.items
        ≡ meaning.with_run images.now lines.old.items (run_of object.now) own.items) }
{
    if own.is_empty() {
        return Ok(());
    }
    let line = line_of(alloc, images, object, own)?;
    put_line(lines, line)?;
    Ok(())
}

/// The reasons of so many objects from that of a key on.
fn own_reasons(
    alloc: Global,
    runs: &[DeviceRun],
    table: &Table<Key, Group>,
    key: &Key,
    count: u32,
) -> Result<Vec<Reason>, AllocError>
    ensures { IfOk result (λ own. own.items ≡ meaning.own_by (under table.now) runs.now count key.now) }
{
    match key {
        Key::Device(set, first) => of_devices(alloc, runs, table, *set, *first, count),
        _ => Vec::from_slice(alloc, reasons_under(table, key)),
    }
}

/// The reasons of so many devices from one on.
fn of_devices(
    alloc: Global,
    runs: &[DeviceRun],
    table: &Table<Key, Group>,
    set: SetNo,
    first: DevNo,
    count: u32,
) -> Result<Vec<Reason>, AllocError>
    ensures { IfOk result (λ own. own.items ≡ flat_map (λ d. under table.now (meaning.run_key d))
        (filter (meaning.overlaps set first count) runs.now)) }
{
    let mut own = Vec::new(alloc);
    for run in runs {
        if !overlaps(set, first, count, run) {
            continue;
        }
        let key = Key::Device(run.first.set, run.first.number);
        own.extend_from_slice(reasons_under(table, &key))?;
    }
    Ok(own)
}

/// Whether so many devices from one on are among a run.
fn overlaps(set: SetNo, first: DevNo, count: u32, run: &DeviceRun) -> bool
    ensures { result ≡ meaning.overlaps set first count run.now }
{
    let begin = u64::from(first.number());
    let own = u64::from(run.first.number.number());
    run.first.set == set && own < begin + u64::from(count) && is_below(begin, own, run.count)
}

/// Whether a number is below another one and so many more.
fn is_below(number: u64, first: u64, count: usize) -> bool
    ensures { result ≡ nat_lt number (first + count) }
{
    number < first || number - first < count as u64
}
