ghost use Rattle.std.specs.Prelude.{◌≡◌, ◌<◌, ◌^◌, ◌++◌, [], ◌∷◌, IfOk, OnOk, filter, map, sum_by};
ghost use Rattle.std.specs.List.{list_any};
ghost use Rattle.iocm_model.specs.Machine.Configuration.{devices_of, lookup_of};
ghost use Rattle.iocm_model.specs.Machine.Numbering.{subsystems};
ghost use Rattle.iocm_model.specs.Machine.Sight.{sees};
ghost use Rattle.iocm_deck_writer.specs.Device.{runs};
ghost use Rattle.iocm_list.specs.ImageRows as meaning;
ghost use Rattle.iocm_sight.specs.Counts.{numbers_in};
ghost use Rattle.iocm_sight.specs.WantedRows.{wants_number};

use crate::ImageRow;
use iocm_config::Config;
use iocm_filter::Filters;
use iocm_record::{Record, RecordBody};
use iocm_sight::{
    DeviceRun, NamedSight, all_numbers, all_runs, count_online, count_paths, reaches_asked,
    reaches_asked_unit, runs_asked, seen_counts, wants_image,
};
use iocm_types::{Css, Image, Mif, Name};
use iocm_words::SetNumbers;
use std::alloc::{AllocError, Global};

/// A configuration whose images are listed, with what filters ask for: all runs of its devices,
/// those of the devices in the ranges that are asked for, and the numbers of each channel subsystem.
#[derive(Drop)]
struct Listed<'a> {
    filters: &'a Filters,
    config: &'a Config,
    every: Vec<DeviceRun<'a>>,
    asked: Vec<DeviceRun<'a>>,
    numbers: Vec<Vec<SetNumbers>>,
    ghost all: { every.items ≡ runs (devices_of config.now.records) },
    ghost few: { sum_by (λ r. r.count) every.items < 2 ^ 64 },
    ghost in_ranges: { asked.items ≡ runs (filter (wants_number filters.now) (devices_of config.now.records)) },
    ghost numbered: { map (λ v. v.items) numbers.items ≡ map (numbers_in config.now.records) subsystems },
}

/// The rows of the images that filters ask for, in the order of their keys. A view is asked for once
/// for each image and each run of devices.
///
/// `AllocError` (M1): memory ran out.
pub fn image_rows(
    alloc: Global,
    filters: &Filters,
    config: &Config,
) -> Result<Vec<ImageRow>, AllocError>
    ensures { IfOk result (λ rows. rows.items ≡ meaning.image_rows filters.now config.now.records) }
{
    let every = all_runs(alloc, config)?;
    let asked = runs_asked(alloc, filters, config)?;
    let numbers = all_numbers(alloc, config, &every)?;
    let listed = Listed {
        filters,
        config,
        every,
        asked,
        numbers,
    };
    rows_of(alloc, &listed)
}

/// The rows of those images.
fn rows_of(alloc: Global, listed: &Listed<'_>) -> Result<Vec<ImageRow>, AllocError>
    ensures { IfOk result (λ rows. rows.items
        ≡ meaning.image_rows listed.entry.now.filters.now listed.entry.now.config.now.records) }
{
    let mut rows = Vec::new(alloc);
    for (_, entry) in listed.config.walk() {
        put_row(&mut rows, alloc, listed, entry)?;
    }
    Ok(rows)
}

/// Puts the row of the image of a record behind others, if it is that of one that is listed.
fn put_row(
    rows: &mut Vec<ImageRow>,
    alloc: Global,
    listed: &Listed<'_>,
    entry: &Record,
) -> Result<(), AllocError>
    ensures { OnOk result (rows.new.items ≡ rows.old.items ++ meaning.rows_in listed.entry.now.filters.now
        listed.entry.now.config.now.records (entry.entry.now ∷ [])) }
{
    let RecordBody::Image(css, mif, name) = entry.body() else {
        return Ok(());
    };
    let (css, mif, name) = (*css, *mif, *name);
    if is_listed(listed, css, mif, name) {
        rows.push(image_row(alloc, listed, css, mif, name)?)?;
    }
    Ok(())
}

/// The row of an image.
fn image_row(
    alloc: Global,
    listed: &Listed<'_>,
    css: Css,
    mif: Mif,
    name: Name,
) -> Result<ImageRow, AllocError>
    ensures { IfOk result (λ row. row ≡ meaning.image_row listed.entry.now.config.now.records
        (record { css = css; mif = mif; name = name })) }
{
    let config = listed.config;
    let mut sight = NamedSight::new(config, Image { css, mif }, name);
    let seen = seen_counts(&mut sight, &listed.every);
    Ok(ImageRow {
        image: Image { css, mif },
        name,
        paths: count_paths(config, css, name),
        online: count_online(config, css, name),
        devices: seen.devices,
        no_path: seen.no_path,
        one_path: seen.one_path,
        numbers: numbers_of(alloc, listed, css)?,
    })
}

/// The numbers of the sets in use in a channel subsystem.
fn numbers_of(alloc: Global, listed: &Listed<'_>, css: Css) -> Result<Vec<SetNumbers>, AllocError>
    ensures { IfOk result
        (λ numbers. numbers.items ≡ numbers_in listed.entry.now.config.now.records css) }
{
    let place = usize::from(css.number());
    let own = &listed.numbers[place];
    Ok(Vec::from_slice(alloc, own.as_slice())?)
}

/// Whether the row of an image is listed.
fn is_listed(listed: &Listed<'_>, css: Css, mif: Mif, name: Name) -> bool
    ensures { result ≡ meaning.is_image_listed listed.entry.now.filters.now listed.entry.now.config.now.records
        (record { css = css; mif = mif; name = name }) }
{
    wants_image(listed.filters, Image { css, mif }, name)
        && reaches_asked(listed.config, listed.filters, css, name)
        && reaches_asked_unit(listed.config, listed.filters, css, name)
        && sees_asked(listed, css, mif, name)
}

/// Whether an image sees a device that is asked for, or none is.
fn sees_asked(listed: &Listed<'_>, css: Css, mif: Mif, name: Name) -> bool
    ensures { result ≡ meaning.sees_asked listed.entry.now.filters.now listed.entry.now.config.now.records
        (record { css = css; mif = mif; name = name }) }
{
    if listed.filters.devices().is_empty() {
        return true;
    }
    let mut sight = NamedSight::new(listed.config, Image { css, mif }, name);
    sees_any(&mut sight, &listed.asked)
}

/// Whether an image sees the first device of one of these runs.
fn sees_any<'a>(sight: &mut NamedSight<'a>, runs: &[DeviceRun<'a>]) -> bool
    ensures seen { result ≡ list_any (λ r. sees (lookup_of sight.entry.now.records) sight.entry.now.image.css
        sight.entry.now.image.name r.first) runs.entry.now }
    ensures same { sight.new ≡ sight.old }
{
    for run in runs {
        if sight.view_of(run.first()).is_some() {
            return true;
        }
    }
    false
}
