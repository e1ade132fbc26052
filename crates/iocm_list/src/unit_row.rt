ghost use Rattle.std.specs.Prelude.{◌≡◌, ◌∷◌, ◌++◌, [], IfOk, OnOk};
ghost use Rattle.iocm_record.specs.Meaning.{unit_of};
ghost use Rattle.iocm_list.specs.UnitRows as meaning;

use crate::joined::joined_ranges;
use crate::texts::carried_text;
use iocm_config::Config;
use iocm_filter::Filters;
use iocm_lookup::{RecordKind, records_of_kind};
use iocm_record::{Record, RecordBody, UnitFields};
use iocm_sight::{DeviceKey, Listing, devices_on, linked_paths, wants_each};
use iocm_types::{List, Text, UnitNo, UnitRange};
use iocm_words::{DeviceNumbers, LinkedPath};
use std::alloc::{AllocError, Global};

/// What is listed of a control unit.
#[derive(Drop)]
pub struct UnitRow {
    /// Its number.
    pub number: UnitNo,
    /// UNIT, which its statement carries along: the device type.
    pub unit_type: Option<Text>,
    /// CUADD: its control unit address.
    pub cuadd: Option<u8>,
    /// The unit addresses that it answers to.
    pub addresses: List<UnitRange>,
    /// Its paths with their links, by channel subsystem.
    pub paths: List<LinkedPath>,
    /// How many devices name it.
    pub devices: usize,
    /// These devices.
    pub ranges: List<DeviceNumbers>,
}

/// The rows of the control units that filters leave, in the order of keys. The time is that of listing
/// who names whom and of sorting it, and of a look at each device of each control unit.
///
/// `AllocError` (M1): memory ran out.
pub fn unit_rows(
    alloc: Global,
    filters: &Filters,
    config: &Config,
) -> Result<Vec<UnitRow>, AllocError>
    ensures { IfOk result (λ rows. rows.items ≡ meaning.unit_rows filters.now config.now.records) }
{
    let listing = Listing::new(alloc, filters, config)?;
    let mut rows = Vec::new(alloc);
    for entry in records_of_kind(config, RecordKind::Unit) {
        put_record(&mut rows, alloc, &listing, entry)?;
    }
    Ok(rows)
}

/// Puts the row of a control unit's record behind others, if filters leave it.
fn put_record(
    rows: &mut Vec<UnitRow>,
    alloc: Global,
    listing: &Listing<'_>,
    entry: &Record,
) -> Result<(), AllocError>
    ensures { OnOk result (rows.new.items ≡ rows.old.items
        ++ meaning.rows_among listing.now.filters.now listing.now.config.now.records (entry.now ∷ [])) }
{
    match entry.body() {
        RecordBody::Unit(unit) => put_unit(rows, alloc, listing, unit),
        _ => Ok(()),
    }
}

/// Puts the row of a control unit behind others, if filters leave it.
fn put_unit(
    rows: &mut Vec<UnitRow>,
    alloc: Global,
    listing: &Listing<'_>,
    unit: &UnitFields,
) -> Result<(), AllocError>
    ensures { OnOk result (rows.new.items ≡ rows.old.items
        ++ meaning.rows_of listing.now.filters.now listing.now.config.now.records (unit_of unit.now)) }
{
    let own = [unit.number];
    let devices = devices_on(alloc, listing, own.as_slice())?;
    if wants_each(
        listing,
        unit.paths.as_slice(),
        own.as_slice(),
        devices.as_slice(),
    ) {
        rows.push(unit_row(alloc, unit, devices.as_slice())?)?;
    }
    Ok(())
}

/// The row of a control unit that these devices name.
fn unit_row(alloc: Global, unit: &UnitFields, devices: &[DeviceKey]) -> Result<UnitRow, AllocError>
    ensures { IfOk result (λ row. row ≡ meaning.row_with (unit_of unit.now) devices.now) }
{
    Ok(UnitRow {
        number: unit.number,
        unit_type: carried_text(alloc, b"UNIT", unit.carried.as_slice())?,
        cuadd: unit.cuadd,
        addresses: unit.ranges.copy_in(alloc)?,
        paths: List::from_vec(linked_paths(alloc, unit)?),
        devices: devices.len(),
        ranges: List::from_vec(joined_ranges(alloc, devices)?),
    })
}
