ghost use Rattle.std.specs.Prelude.{◌≡◌, [], ◌∷◌, All};
ghost use Rattle.iocm_model.specs.Machine.Configuration.{lookup_of, records_of, IsKeyed};
ghost use Rattle.std.specs.Option.{option_map};
ghost use Rattle.iocm_filter.specs.Sieves as sieves;
ghost use Rattle.iocm_console.specs.Alike.{view_of, IsAlike};
ghost use Rattle.iocm_lines.specs.Told.{with_device};
ghost use Rattle.iocm_console.specs.Lines as meaning;
ghost use Rattle.iocm_console.specs.Lines.{AreLinesOf, celled, image_lines, kept_line, line_at, record_lines};
ghost use Rattle.iocm_console.specs.Lines.{subchannel_at, text_at};
ghost use Rattle.iocm_console.specs.Output.{Writes};

use crate::cells::CellDevice;
use crate::seen::Seen;
use crate::subsystem_cells::SubsystemCells;
use crate::{Output, Written};
use iocm_config::Config;
use iocm_derive::ImageSight;
use iocm_filter::Sieve;
use iocm_lines::{Form, SubchannelLines};
use iocm_record::{Record, RecordBody};
use iocm_types::{Css, Image, Name, View};
use std::alloc::Allocator;
use std::io::Write;

/// Writes the rows of all images at some number cells in a form, those of the subchannels that pass.
/// The images of a channel subsystem come one after the other, and each goes over the cells of its own
/// alone.
pub(crate) fn write_rows<A: Allocator, W: Write + Drop>(
    output: &mut Output<W>,
    form: Form,
    sieve: &Option<Sieve<'_>>,
    config: &Config<A>,
    cells: &[CellDevice],
) -> Written
    requires { All (IsAlike (lookup_of config.now.records)) cells.now }
    ensures { Writes W.contents result output.old output.new
        (record_lines form sieve.now (lookup_of config.now.records) (celled cells.now) (records_of config.now.records)) }
{
    let mut near = SubsystemCells::of(cells, Css::FIRST);
    for (_, entry) in config.walk() {
        near = near.for_record(cells, entry);
        write_record(output, form, sieve, config, entry, near.cells)?;
    }
    Ok(())
}

/// Writes the rows of a record, if it is that of an image.
fn write_record<A: Allocator, W: Write + Drop>(
    output: &mut Output<W>,
    form: Form,
    sieve: &Option<Sieve<'_>>,
    config: &Config<A>,
    entry: &Record<A>,
    cells: &[CellDevice],
) -> Written
    requires { All (IsAlike (lookup_of config.now.records)) cells.now }
    ensures { Writes W.contents result output.old output.new
        (record_lines form sieve.now (lookup_of config.now.records) (celled cells.now) (entry.now ∷ [])) }
{
    match entry.body() {
        RecordBody::Image(css, mif, name) => {
            let image = Image {
                css: *css,
                mif: *mif,
            };
            write_image(output, form, sieve, config, &image, name, cells)
        }
        _ => Ok(()),
    }
}

/// Writes the rows of an image at some number cells, if it passes. The paths that it reaches are
/// looked up once.
fn write_image<A: Allocator, W: Write + Drop>(
    output: &mut Output<W>,
    form: Form,
    sieve: &Option<Sieve<'_>>,
    config: &Config<A>,
    image: &Image,
    name: &Name,
    cells: &[CellDevice],
) -> Written
    requires { All (IsAlike (lookup_of config.now.records)) cells.now }
    ensures { Writes W.contents result output.old output.new (image_lines form sieve.now (lookup_of config.now.records)
        (record { css = image.now.css; mif = image.now.mif; name = name.now }) (celled cells.now)) }
{
    if !is_image_kept(sieve, *image) {
        return Ok(());
    }
    // For the proof alone: each record stands under its own key, so a view is of the device that
    // was asked for.
    config.has_own_keys();
    let mut sight = ImageSight::new(config, *image, *name);
    let mut lines = SubchannelLines::new(*image, *name);
    // The form is chosen here, so that it isn't tried for each row.
    match form {
        Form::Text => write_cells(output, Form::Text, sieve, &mut sight, &mut lines, cells),
        Form::Json => write_cells(output, Form::Json, sieve, &mut sight, &mut lines, cells),
    }
}

/// Writes the rows of an image at some number cells, each by the one before it.
#[inline(always)]
fn write_cells<A: Allocator, W: Write + Drop>(
    output: &mut Output<W>,
    form: Form,
    sieve: &Option<Sieve<'_>>,
    sight: &mut ImageSight<'_, A>,
    lines: &mut SubchannelLines,
    cells: &[CellDevice],
) -> Written
    requires keyed { IsKeyed sight.old.records }
    requires alike { All (IsAlike (lookup_of sight.old.records)) cells.now }
    requires lines { AreLinesOf sight.old.image lines.old }
    ensures { Writes W.contents result output.old output.new
        (image_lines form sieve.now (lookup_of sight.old.records) sight.old.image (celled cells.now)) }
{
    let image = sight.image();
    let mut seen = Seen::nothing();
    let mut last = None;
    for place in cells {
        seen.go_to(sight, last, place);
        last = Some(*place);
        write_seen(output, form, sieve, &image, place, &seen, lines)?;
    }
    Ok(())
}

/// Writes the row of a subchannel, if something is seen there and it passes.
#[inline(always)]
fn write_seen<W: Write + Drop>(
    output: &mut Output<W>,
    form: Form,
    sieve: &Option<Sieve<'_>>,
    image: &Image,
    place: &CellDevice,
    seen: &Seen,
    lines: &mut SubchannelLines,
) -> Written
    requires line { seen.now.line.items
        ≡ line_at (subchannel_at image.now place.now.cell) (view_of seen.now place.now.device) }
    requires image { lines.old.image ≡ image.now }
    ensures written { Writes W.contents result output.old output.new (kept_line form sieve.now lines.old.name
        (subchannel_at image.now place.now.cell) (view_of seen.now place.now.device)) }
    ensures image { lines.new.image ≡ lines.old.image }
    ensures name { lines.new.name ≡ lines.old.name }
{
    if seen.line.is_empty() {
        return Ok(());
    }
    if !is_kept(sieve, image, place, &seen.view) {
        return Ok(());
    }
    match form {
        Form::Text => output.bytes(seen.line.as_slice()),
        Form::Json => write_json(output, place, &seen.view, lines),
    }
}

/// Writes the line of JSON of a subchannel, if something is seen there: this, but for the number of the
/// device.
fn write_json<W: Write + Drop>(
    output: &mut Output<W>,
    place: &CellDevice,
    view: &Option<View>,
    lines: &mut SubchannelLines,
) -> Written
    ensures written { Writes W.contents result output.old output.new (text_at Form.Json lines.old.name
        (subchannel_at lines.old.image place.now.cell) (option_map (with_device place.now.device) view.now)) }
    ensures image { lines.new.image ≡ lines.old.image }
    ensures name { lines.new.name ≡ lines.old.name }
{
    let Some(view) = view else {
        return Ok(());
    };
    let view = View {
        device: place.device,
        ..*view
    };
    lines.put(place.cell.set, place.cell.number, &view);
    output.bytes(lines.as_slice())
}

/// Whether an image passes.
fn is_image_kept(sieve: &Option<Sieve<'_>>, image: Image) -> bool
    ensures { result ≡ meaning.is_image_kept sieve.now image }
{
    match sieve {
        Some(sieve) => sieve.passes_image(image),
        None => true,
    }
}

/// Whether a subchannel passes with what is seen there, which is this but for the number of the device;
/// or nothing is seen.
#[inline]
fn is_kept(
    sieve: &Option<Sieve<'_>>,
    image: &Image,
    place: &CellDevice,
    view: &Option<View>,
) -> bool
    ensures { result ≡ meaning.is_view_kept sieve.now (subchannel_at image.now place.now.cell)
        (option_map (with_device place.now.device) view.now) }
{
    match (sieve, view) {
        (Some(sieve), Some(view)) => passes(sieve, image, place, view),
        _ => true,
    }
}

/// Whether the subchannel passes a sieve.
fn passes(sieve: &Sieve<'_>, image: &Image, place: &CellDevice, view: &View) -> bool
    ensures { result ≡ sieves.passes sieve.now
        (subchannel_at image.now place.now.cell, with_device place.now.device view.now) }
{
    sieve.passes_image(*image)
        && sieve.passes_device(place.cell.set, place.device)
        && sieve.filters().wants_view(image.css, view)
}
