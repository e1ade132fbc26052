ghost use Rattle.std.specs.Prelude.{◌≡◌, ◌++◌, ◌||◌, [], ◌∷◌, map, filter, IfOk, OnOk};
ghost use Rattle.iocm_model.specs.Machine.Configuration.{records_of};
ghost use Rattle.iocm_filter.specs.Wanted as wanted;
ghost use Rattle.iocm_list.specs.DeviceRows as meaning;
ghost use Rattle.iocm_sight.specs.Seen.{sights_in};

use crate::DeviceRow;
use crate::texts::carried_text;
use iocm_config::Config;
use iocm_filter::Filters;
use iocm_sight::{
    DeviceRun, NamedSight, images_by, paths_by, runs_asked, sights_asked, wants_paths, wants_units,
};
use std::alloc::{AllocError, Global};

/// The rows of the devices that filters ask for, in the order of their keys. A view is asked for once
/// for each image and each run of devices.
///
/// `AllocError` (M1): memory ran out.
pub fn device_rows(
    alloc: Global,
    filters: &Filters,
    config: &Config,
) -> Result<Vec<DeviceRow>, AllocError>
    ensures { IfOk result (λ rows. rows.items ≡ meaning.device_rows filters.now config.now.records) }
{
    let runs = runs_asked(alloc, filters, config)?;
    let mut sights = sights_asked(alloc, filters, config)?;
    let mut rows = Vec::new(alloc);
    put_rows(
        &mut rows,
        alloc,
        filters,
        config,
        sights.as_mut_slice(),
        &runs,
    )?;
    Ok(rows)
}

/// Puts the rows of runs behind others, those that are listed.
fn put_rows<'a>(
    rows: &mut Vec<DeviceRow>,
    alloc: Global,
    filters: &Filters,
    config: &'a Config,
    sights: &mut [NamedSight<'a>],
    runs: &[DeviceRun<'a>],
) -> Result<(), AllocError>
    requires { sights.old ≡ sights_in filters.now config.now.records (records_of config.now.records) }
    ensures { OnOk result (rows.new.items ≡ rows.old.items ++ filter (meaning.is_listed filters.entry.now)
        (map (meaning.device_row filters.entry.now config.entry.now.records) runs.entry.now)) }
{
    for run in runs {
        put_row(rows, alloc, filters, config, sights, run)?;
    }
    Ok(())
}

/// Puts the row of a run behind others, if it is listed.
fn put_row<'a>(
    rows: &mut Vec<DeviceRow>,
    alloc: Global,
    filters: &Filters,
    config: &'a Config,
    sights: &mut [NamedSight<'a>],
    run: &DeviceRun<'a>,
) -> Result<(), AllocError>
    requires { sights.old ≡ sights_in filters.now config.now.records (records_of config.now.records) }
    ensures rows { OnOk result (rows.new.items ≡ rows.old.items ++ filter (meaning.is_listed filters.entry.now)
        (meaning.device_row filters.entry.now config.entry.now.records run.entry.now ∷ [])) }
    ensures same { sights.new ≡ sights.old }
{
    let row = device_row(alloc, filters, config, sights, run)?;
    if is_listed(filters, &row) {
        rows.push(row)?;
    }
    Ok(())
}

/// The row of a run.
fn device_row<'a>(
    alloc: Global,
    filters: &Filters,
    config: &'a Config,
    sights: &mut [NamedSight<'a>],
    run: &DeviceRun<'a>,
) -> Result<DeviceRow, AllocError>
    requires { sights.old ≡ sights_in filters.now config.now.records (records_of config.now.records) }
    ensures row { IfOk result
        (λ row. row ≡ meaning.device_row filters.entry.now config.entry.now.records run.entry.now) }
    ensures same { sights.new ≡ sights.old }
{
    let first = run.first();
    let images = images_by(alloc, filters, sights, first)?;
    let units = first.lists.units();
    Ok(DeviceRow {
        set: first.set,
        first: first.number,
        count: run.count(),
        device_type: carried_text(alloc, b"UNIT", first.lists.carried())?,
        units: Vec::from_slice(alloc, units)?,
        unit_address: first.unit_address,
        paths: paths_by(alloc, config, units)?,
        images,
    })
}

/// Whether a row is listed.
fn is_listed(filters: &Filters, row: &DeviceRow) -> bool
    ensures { result ≡ meaning.is_listed filters.now row.now }
{
    wants_units(filters, &row.units)
        && wants_paths(filters, &row.paths)
        && (!asks_images(filters) || !row.images.is_empty())
}

/// Whether images are asked for, or how many paths are online to them.
fn asks_images(filters: &Filters) -> bool
    ensures { result ≡ (wanted.asks filters.now.images || wanted.asks filters.now.online) }
{
    !filters.images().is_empty() || !filters.online().is_empty()
}
