ghost use Rattle.std.specs.Prelude.{◌≡◌, ◌∷◌, ◌++◌, [], filter, not, IfOk, OnOk};
ghost use Rattle.iocm_record.specs.Meaning.{path_of};
ghost use Rattle.iocm_list.specs.PathRows as meaning;

use crate::texts::carried_text;
use iocm_config::Config;
use iocm_filter::Filters;
use iocm_lookup::{RecordKind, records_of_kind};
use iocm_record::{Carried, PathFields, Record, RecordBody};
use iocm_sight::{Listing, devices_on, units_of_path, wants_each};
use iocm_types::{Chpid, Css, CssPath, Key, List, Name, PathKind, Text, UnitNo};
use iocm_values::set_of_names;
use std::alloc::{AllocError, Global};

/// What a channel path's statement carries along of which rows tell (IOCP User's Guide, CHPID
/// statement).
#[derive(Drop)]
pub struct PathTexts {
    /// TYPE: the channel path's type.
    pub channel_type: Option<Text>,
    /// PCHID: the physical channel.
    pub pchid: Option<Text>,
    /// VCHID: the virtual channel.
    pub vchid: Option<Text>,
    /// AID: the adapter.
    pub aid: Option<Text>,
    /// PORT: the adapter's port.
    pub port: Option<Text>,
    /// SWITCH: the switch.
    pub switch: Option<Text>,
}

/// What is listed of a channel path.
#[derive(Drop)]
pub struct PathRow {
    /// The channel subsystem of the path.
    pub css: Css,
    /// Its number there.
    pub number: Chpid,
    /// How images use it.
    pub kind: PathKind,
    /// What its statement carries along.
    pub texts: PathTexts,
    /// How many devices name one of its control units.
    pub devices: usize,
    /// The images to which it is online, by name.
    pub online: List<Name>,
    /// The images that may use it and to which it isn't online, by name.
    pub offline: List<Name>,
    /// The control units that have it.
    pub units: List<UnitNo>,
}

/// The rows of the channel paths that filters leave, in the order of keys. The time is that of listing
/// who names whom and of sorting it, and of a look at each device of each path.
///
/// `AllocError` (M1): memory ran out.
pub fn path_rows(
    alloc: Global,
    filters: &Filters,
    config: &Config,
) -> Result<Vec<PathRow>, AllocError>
    ensures { IfOk result (λ rows. rows.items ≡ meaning.path_rows filters.now config.now.records) }
{
    let listing = Listing::new(alloc, filters, config)?;
    let mut rows = Vec::new(alloc);
    for entry in records_of_kind(config, RecordKind::Path) {
        put_record(&mut rows, alloc, &listing, entry)?;
    }
    Ok(rows)
}

/// Puts the row of a path's record behind others, if filters leave it.
fn put_record(
    rows: &mut Vec<PathRow>,
    alloc: Global,
    listing: &Listing<'_>,
    entry: &Record,
) -> Result<(), AllocError>
    ensures { OnOk result (rows.new.items ≡ rows.old.items
        ++ meaning.rows_among listing.now.filters.now listing.now.config.now.records (entry.now ∷ [])) }
{
    match entry.body() {
        RecordBody::Path(path) => put_path(rows, alloc, listing, path),
        _ => Ok(()),
    }
}

/// Puts the row of a path behind others, if filters leave it.
fn put_path(
    rows: &mut Vec<PathRow>,
    alloc: Global,
    listing: &Listing<'_>,
    path: &PathFields,
) -> Result<(), AllocError>
    ensures { OnOk result (rows.new.items ≡ rows.old.items
        ++ meaning.rows_of listing.now.filters.now listing.now.config.now.records (path_of path.now)) }
{
    let units = units_of_path(alloc, listing, path.css, path.number)?;
    let devices = devices_on(alloc, listing, units.as_slice())?;
    let own = [own_path(path)];
    if wants_each(
        listing,
        own.as_slice(),
        units.as_slice(),
        devices.as_slice(),
    ) {
        rows.push(path_row(alloc, listing.config, path, units, devices.len())?)?;
    }
    Ok(())
}

fn own_path(path: &PathFields) -> CssPath
    ensures { result ≡ meaning.own_path (path_of path.now) }
{
    CssPath {
        css: path.css,
        path: path.number,
    }
}

/// The row of a path that these control units have, and so many devices are on.
fn path_row(
    alloc: Global,
    config: &Config,
    path: &PathFields,
    units: Vec<UnitNo>,
    devices: usize,
) -> Result<PathRow, AllocError>
    ensures { IfOk result
        (λ row. row ≡ meaning.row_with config.now.records (path_of path.now) units.items devices) }
{
    let users = users_of(alloc, path)?;
    let online = online_users(alloc, config, path, users.as_slice())?;
    let offline = offline_users(alloc, config, path, users.as_slice())?;
    Ok(PathRow {
        css: path.css,
        number: path.number,
        kind: path.kind,
        texts: path_texts(alloc, path.carried.as_slice())?,
        devices,
        online: List::from_vec(online),
        offline: List::from_vec(offline),
        units: List::from_vec(units),
    })
}

fn path_texts(alloc: Global, carried: &[Carried]) -> Result<PathTexts, AllocError>
    ensures { IfOk result (λ texts. texts ≡ meaning.path_texts carried.now) }
{
    Ok(PathTexts {
        channel_type: carried_text(alloc, b"TYPE", carried)?,
        pchid: carried_text(alloc, b"PCHID", carried)?,
        vchid: carried_text(alloc, b"VCHID", carried)?,
        aid: carried_text(alloc, b"AID", carried)?,
        port: carried_text(alloc, b"PORT", carried)?,
        switch: carried_text(alloc, b"SWITCH", carried)?,
    })
}

/// The names of the images that may use a path, in their order, each once.
///
/// `AllocError` (M1): memory ran out.
pub fn users_of(alloc: Global, path: &PathFields) -> Result<Vec<Name>, AllocError>
    ensures { IfOk result (λ names. names.items ≡ meaning.users_of (path_of path.now)) }
{
    let mut names = Vec::from_slice(alloc, path.access.as_slice())?;
    names.extend_from_slice(path.candidates.as_slice())?;
    set_of_names(names)
}

/// Of these images those to which a path is online.
fn online_users(
    alloc: Global,
    config: &Config,
    path: &PathFields,
    users: &[Name],
) -> Result<Vec<Name>, AllocError>
    ensures { IfOk result (λ names. names.items
        ≡ filter (meaning.has_online config.now.records (path_of path.now)) users.now) }
{
    let mut names = Vec::new(alloc);
    for name in users {
        if has_online(config, path, *name) {
            names.push(*name)?;
        }
    }
    Ok(names)
}

/// Of these images those to which a path isn't online.
fn offline_users(
    alloc: Global,
    config: &Config,
    path: &PathFields,
    users: &[Name],
) -> Result<Vec<Name>, AllocError>
    ensures { IfOk result (λ names. names.items
        ≡ filter (λ name. not (meaning.has_online config.now.records (path_of path.now) name)) users.now) }
{
    let mut names = Vec::new(alloc);
    for name in users {
        if !has_online(config, path, *name) {
            names.push(*name)?;
        }
    }
    Ok(names)
}

/// Whether a path is online to an image.
fn has_online(config: &Config, path: &PathFields, name: Name) -> bool
    ensures { result ≡ meaning.has_online config.now.records (path_of path.now) name }
{
    config
        .get(&Key::Online(path.css, path.number, name))
        .is_some()
}
