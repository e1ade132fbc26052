ghost use Rattle.std.specs.Prelude.{◌≡◌, ◌<◌, ◌^◌, ◌++◌, sum_by, IfOk, OnOk};
ghost use Rattle.std.specs.List.{flat_map};
ghost use Rattle.iocm_impact.specs.Gathered.{change};
ghost use Rattle.iocm_objects.specs.Lines as objects;
ghost use Rattle.iocm_offon_text.specs.Texts as meaning;

use crate::devices::devices_in;
use crate::line::{Line, ObjectRange};
use crate::lines::lines_among;
use iocm_config::Config;
use iocm_filter::Filters;
use iocm_impact::{NamedImage, named_images};
use iocm_impact_text::put_image_list;
use iocm_objects::{Change, Object, name_text, runs_of};
use iocm_offon::{images_in, paths_text, reasons_among};
use iocm_plan::{DeviceRun, runs_asked};
use iocm_words::{grouped_word, put_blanks, without_blanks_behind};
use std::alloc::{AllocError, Global};

/// Puts what is told of paths that may go off and on again behind a text: which of these objects are the reasons, with
/// their fields that lead to devices, and which paths of how many devices they lead another way for which images.
/// Nothing is put where no path goes off and on.
///
/// `AllocError` (M1): memory ran out.
///
/// Promise: what a plan tells of paths that go off and on is just what its definition says of the objects that are left.
pub fn put_offon(
    text: &mut Vec<u8>,
    alloc: Global,
    filters: &Filters,
    is_lost: bool,
    old: &Config,
    new: &Config,
    objects: &[Object],
) -> Result<(), AllocError>
    ensures { OnOk result (text.new.items ≡ text.old.items
        ++ meaning.offon_text (change filters.now is_lost old.now.records new.now.records) objects.now) }
{
    let runs = runs_asked(alloc, filters, old, new)?;
    let images = named_images(alloc, old, new)?;
    let reasons = reasons_among(alloc, filters, is_lost, old, new, &images, &runs)?;
    let told = runs_of(alloc, objects)?;
    let lines = lines_among(alloc, &images, &runs, &reasons, &told)?;
    put_section(text, alloc, &images, &runs, &lines)?;
    Ok(())
}

/// Puts a heading and lines behind a text, if there are any.
fn put_section(
    text: &mut Vec<u8>,
    alloc: Global,
    images: &[NamedImage],
    runs: &[DeviceRun],
    lines: &[Line],
) -> Result<(), AllocError>
    requires { sum_by (λ r. r.count) runs.now < 2 ^ 64 }
    ensures { OnOk result (text.new.items ≡ text.old.items ++ meaning.section images.now runs.now lines.now) }
{
    if lines.is_empty() {
        return Ok(());
    }
    put_heading(text)?;
    put_lines(text, alloc, images, runs, lines)?;
    Ok(())
}

fn put_heading(text: &mut Vec<u8>) -> Result<(), AllocError>
    ensures { OnOk result (text.new.items ≡ text.old.items ++ meaning.heading) }
{
    text.extend_from_slice(
        b"On a real machine these may go off and on again, which no mask shows:\n",
    )
}

fn put_lines(
    text: &mut Vec<u8>,
    alloc: Global,
    images: &[NamedImage],
    runs: &[DeviceRun],
    lines: &[Line],
) -> Result<(), AllocError>
    requires { sum_by (λ r. r.count) runs.now < 2 ^ 64 }
    ensures { OnOk result (text.new.items
        ≡ text.old.items ++ flat_map (meaning.line_text images.now runs.now) lines.now) }
{
    for line in lines {
        put_one(text, alloc, images, runs, line)?;
    }
    Ok(())
}

/// Puts a line with the objects, and one with what they lead another way, behind a text.
fn put_one(
    text: &mut Vec<u8>,
    alloc: Global,
    images: &[NamedImage],
    runs: &[DeviceRun],
    line: &Line,
) -> Result<(), AllocError>
    requires { sum_by (λ r. r.count) runs.now < 2 ^ 64 }
    ensures { OnOk result (text.new.items ≡ text.old.items ++ meaning.line_text images.now runs.now line.now) }
{
    put_objects(text, alloc, line)?;
    put_reached(text, alloc, images, runs, line)
}

/// Puts the line with the objects behind a text, without the blanks at its end.
fn put_objects(text: &mut Vec<u8>, alloc: Global, line: &Line) -> Result<(), AllocError>
    ensures { OnOk result (text.new.items ≡ text.old.items ++ meaning.object_line line.now) }
{
    let whole = whole_line(alloc, line.ranges(), line.fields())?;
    text.extend_from_slice(without_blanks_behind(&whole))?;
    text.push(b'\n')?;
    Ok(())
}

fn whole_line(alloc: Global, ranges: &[ObjectRange], fields: &[u8]) -> Result<Vec<u8>, AllocError>
    ensures { IfOk result (λ line. line.items ≡ meaning.whole_line ranges.now fields.now) }
{
    let mut line = Vec::new(alloc);
    if let [first, others @ ..] = ranges {
        put_named(&mut line, alloc, first, others)?;
        line.extend_from_slice(fields)?;
    }
    Ok(line)
}

/// Puts the sign of objects, their name on 26 places and a blank behind a line.
fn put_named(
    line: &mut Vec<u8>,
    alloc: Global,
    first: &ObjectRange,
    others: &[ObjectRange],
) -> Result<(), AllocError>
    ensures { OnOk result (line.new.items ≡ line.old.items ++ meaning.named_part first.now others.now) }
{
    let name = names_text(alloc, first, others)?;
    line.push(sign(first.change))?;
    line.push(b' ')?;
    line.extend_from_slice(&name)?;
    put_blanks(line, 26usize.saturating_sub(name.len()))?;
    line.push(b' ')?;
    Ok(())
}

fn sign(change: Change) -> u8
    ensures { result ≡ objects.sign change }
{
    match change {
        Change::Added => b'+',
        Change::Deleted => b'-',
        Change::Changed => b'~',
    }
}

/// The name of the first objects, and how many others there are.
fn names_text(
    alloc: Global,
    first: &ObjectRange,
    others: &[ObjectRange],
) -> Result<Vec<u8>, AllocError>
    ensures { IfOk result (λ text. text.items ≡ meaning.names_text first.now others.now) }
{
    let name = name_text(alloc, &first.first, first.count)?;
    let mut text = Vec::from_slice(alloc, name.as_slice())?;
    put_more(&mut text, alloc, others.len())?;
    Ok(text)
}

fn put_more(text: &mut Vec<u8>, alloc: Global, count: usize) -> Result<(), AllocError>
    ensures { OnOk result (text.new.items ≡ text.old.items ++ meaning.more_text count) }
{
    if count != 0 {
        let more = format!(in alloc; " and {count} more")?;
        text.extend_from_slice(more.as_bytes())?;
    }
    Ok(())
}

/// Puts the line with the paths, devices and images behind a text.
fn put_reached(
    text: &mut Vec<u8>,
    alloc: Global,
    images: &[NamedImage],
    runs: &[DeviceRun],
    line: &Line,
) -> Result<(), AllocError>
    requires { sum_by (λ r. r.count) runs.now < 2 ^ 64 }
    ensures { OnOk result (text.new.items ≡ text.old.items ++ meaning.reached_line images.now runs.now line.now) }
{
    let paths = paths_text(alloc, line.reasons())?;
    let count = devices_in(runs, line);
    text.extend_from_slice(b"    ")?;
    text.extend_from_slice(paths.as_slice())?;
    text.extend_from_slice(b" of ")?;
    put_devices(text, alloc, count)?;
    put_images(text, alloc, images, line)
}

/// Puts how many devices there are behind a text, with commas.
fn put_devices(text: &mut Vec<u8>, alloc: Global, count: usize) -> Result<(), AllocError>
    ensures { OnOk result (text.new.items ≡ text.old.items ++ meaning.devices_text count) }
{
    let number = grouped_word(alloc, count as u64)?;
    text.extend_from_slice(&number)?;
    if count == 1 {
        text.extend_from_slice(b" device")?;
    } else {
        text.extend_from_slice(b" devices")?;
    }
    Ok(())
}

fn put_images(
    text: &mut Vec<u8>,
    alloc: Global,
    images: &[NamedImage],
    line: &Line,
) -> Result<(), AllocError>
    ensures { OnOk result (text.new.items ≡ text.old.items ++ meaning.images_part images.now line.now) }
{
    let own = images_in(alloc, images, line.reasons())?;
    text.extend_from_slice(b" in ")?;
    put_image_list(text, alloc, &own, images.len())?;
    text.push(b'\n')?;
    Ok(())
}
