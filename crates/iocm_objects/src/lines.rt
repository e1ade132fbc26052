ghost use Rattle.std.specs.Prelude.{◌≡◌, ◌++◌, map, IfOk, OnOk};
ghost use Rattle.iocm_types.specs.Print.{hex2, hex4};
ghost use Rattle.iocm_objects.specs.Lines as meaning;
ghost use Rattle.iocm_objects.specs.Runs.{run_of};

use crate::differing::arrow_text;
use crate::object::Change;
use crate::runs::Run;
use crate::told::Told;
use iocm_types::{DevNo, Key, SetNo, Text};
use iocm_values::printed;
use iocm_words::{put_blanks, without_blanks_behind};
use std::alloc::{AllocError, Global};

/// The lines of runs: of each the sign of the change, its name on 26 places, and its fields as they are told.
///
/// `AllocError` (M1): memory ran out.
///
/// Promise: the lines of a plan's objects are exactly those of its runs.
pub fn object_lines(alloc: Global, runs: &[Run<'_>]) -> Result<Vec<u8>, AllocError>
    ensures { IfOk result (λ text. text.items ≡ meaning.lines (map run_of runs.now)) }
{
    let mut text = Vec::new(alloc);
    for run in runs {
        let line = whole_line(alloc, run)?;
        text.extend_from_slice(without_blanks_behind(&line))?;
        text.push(b'\n')?;
    }
    Ok(text)
}

/// The line of a run, with blanks at its end.
fn whole_line(alloc: Global, run: &Run<'_>) -> Result<Vec<u8>, AllocError>
    ensures { IfOk result (λ line. line.items ≡ meaning.whole_line (run_of run.now)) }
{
    let mut line = Vec::new(alloc);
    line.push(sign(run.first.change))?;
    line.push(b' ')?;
    let name = name_text(alloc, &run.first.key, run.count)?;
    line.extend_from_slice(name.as_slice())?;
    put_blanks(&mut line, 26usize.saturating_sub(name.len()))?;
    line.push(b' ')?;
    put_fields(&mut line, alloc, run.count, run.first.told.as_slice())?;
    Ok(line)
}

fn sign(change: Change) -> u8
    ensures { result ≡ meaning.sign change }
{
    match change {
        Change::Added => b'+',
        Change::Deleted => b'-',
        Change::Changed => b'~',
    }
}

/// The name of a run: of devices their range as `--device` takes it, and how many several are; else the key.
///
/// `AllocError` (M1): memory ran out.
pub fn name_text(alloc: Global, key: &Key, count: u32) -> Result<Text, AllocError>
    ensures { IfOk result (λ text. text ≡ meaning.name_text key.now count) }
{
    match key {
        Key::Device(set, number) => devices_text(alloc, *set, *number, count),
        _ => printed(alloc, key),
    }
}

/// The range of so many devices from a first one on, and how many several are.
fn devices_text(alloc: Global, set: SetNo, number: DevNo, count: u32) -> Result<Text, AllocError>
    ensures { IfOk result (λ text. text ≡ meaning.devices_text set number count) }
{
    let mut text = Vec::from_slice(alloc, b"device ")?;
    if set.number() != 0 {
        text.extend_from_slice(format!(in alloc; "{set}.")?.as_bytes())?;
    }
    text.extend_from_slice(numbers_text(alloc, number, count)?.as_slice())?;
    if count > 1 {
        text.extend_from_slice(format!(in alloc; " ({count})")?.as_bytes())?;
    }
    Ok(Text::from_vec(text))
}

/// So many device numbers from a first one on.
fn numbers_text(alloc: Global, number: DevNo, count: u32) -> Result<Text, AllocError>
    ensures { IfOk result (λ text. text ≡ meaning.range_text hex4 number count) }
{
    let first = u64::from(number.number());
    let last = (first + u64::from(count)).saturating_sub(1);
    let text = if first == last {
        format!(in alloc; "{first:04X}")?
    } else {
        format!(in alloc; "{first:04X}-{last:04X}")?
    };
    Ok(Text::from_vec(text.into_bytes()))
}

/// So many unit addresses from a first one on.
fn addresses_text(alloc: Global, address: u8, count: u32) -> Result<Text, AllocError>
    ensures { IfOk result (λ text. text ≡ meaning.range_text hex2 address count) }
{
    let first = u64::from(address);
    let last = (first + u64::from(count)).saturating_sub(1);
    let text = if first == last {
        format!(in alloc; "{first:02X}")?
    } else {
        format!(in alloc; "{first:02X}-{last:02X}")?
    };
    Ok(Text::from_vec(text.into_bytes()))
}

/// Puts fields behind a line, with two blanks behind each; where none is told the record is written otherwise.
fn put_fields(
    line: &mut Vec<u8>,
    alloc: Global,
    count: u32,
    told: &[Told],
) -> Result<(), AllocError>
    ensures { OnOk result (line.new.items ≡ line.old.items ++ meaning.told_part count told.now) }
{
    if told.is_empty() {
        line.extend_from_slice(b"written otherwise")?;
        return Ok(());
    }
    for field in told {
        put_told(line, alloc, count, field)?;
    }
    Ok(())
}

/// Puts a field behind a line, with two blanks behind it.
fn put_told(line: &mut Vec<u8>, alloc: Global, count: u32, told: &Told) -> Result<(), AllocError>
    ensures { OnOk result (line.new.items ≡ line.old.items ++ meaning.told_item count told.now) }
{
    let text = told_text(alloc, count, told)?;
    line.extend_from_slice(text.as_slice())?;
    line.extend_from_slice(b"  ")?;
    Ok(())
}

/// A field of a run as it is printed: of its unit addresses the first and the last.
///
/// `AllocError` (M1): memory ran out.
pub fn told_text(alloc: Global, count: u32, told: &Told) -> Result<Text, AllocError>
    ensures { IfOk result (λ text. text ≡ meaning.told_text count told.now) }
{
    match told {
        Told::Words(_, text) => text.copy_in(alloc),
        Told::Address(first) => {
            let addresses = addresses_text(alloc, *first, count)?;
            let mut text = Vec::from_slice(alloc, b"UNITADD ")?;
            text.extend_from_slice(addresses.as_slice())?;
            Ok(Text::from_vec(text))
        }
        Told::OtherAddress(old, new) => {
            let old = addresses_text(alloc, *old, count)?;
            let new = addresses_text(alloc, *new, count)?;
            arrow_text(alloc, b"UNITADD", old.as_slice(), new.as_slice())
        }
    }
}
