ghost use Rattle.std.specs.Prelude.{◌≡◌, IfOk};
ghost use Rattle.iocm_filter.specs.Notes as meaning;

use crate::filters::{is_at, is_named, is_within, means_path};
use crate::{DeviceRange, Filters, ImageWord, PathWord};
use iocm_config::Config;
use iocm_record::{Record, RecordBody};
use iocm_types::{Image, Name, UnitNo};
use std::alloc::{AllocError, Allocator, Global};

/// What is asked for by its name.
#[derive(Clone, Copy, PartialEq, Eq)]
pub enum Asked {
    /// An image.
    Image(ImageWord),
    /// A control unit.
    Unit(UnitNo),
    /// A path.
    Path(PathWord),
    /// Devices.
    Device(DeviceRange),
}

/// What filters ask for that a configuration hasn't: images, then control units, paths and devices,
/// of each kind in their order. The time is that of a walk over the records for each of them.
///
/// `AllocError` (M1): memory ran out.
pub fn missing<A: Allocator>(
    alloc: Global,
    filters: &Filters,
    config: &Config<A>,
) -> Result<Vec<Asked>, AllocError>
    ensures { IfOk result (λ found. found.items ≡ meaning.missing_in config.now.records filters.now) }
{
    let asked = asked_by_name(alloc, filters)?;
    asked
        .into_iter()
        .filter(|asked| !is_there(config, asked))
        .collect(alloc)
}

/// What filters ask for by its name.
fn asked_by_name(alloc: Global, filters: &Filters) -> Result<Vec<Asked>, AllocError>
    ensures { IfOk result (λ asked. asked.items ≡ meaning.asked_by_name filters.now) }
{
    let images = filters.images.iter().map(|word| Asked::Image(*word));
    let units = filters.units.iter().map(|unit| Asked::Unit(*unit));
    let paths = filters.paths.iter().map(|word| Asked::Path(*word));
    let devices = filters.devices.iter().map(|range| Asked::Device(*range));
    images
        .chain(units)
        .chain(paths)
        .chain(devices)
        .collect(alloc)
}

/// Whether a configuration has what is asked for.
fn is_there<A: Allocator>(config: &Config<A>, asked: &Asked) -> bool
    ensures { result ≡ meaning.is_there config.now.records asked.now }
{
    config.walk().any(|(_, entry)| is_asked(asked, entry))
}

/// Whether a record is that of what is asked for.
fn is_asked<A: Allocator>(asked: &Asked, entry: &Record<A>) -> bool
    ensures { result ≡ meaning.is_asked asked.now entry.now }
{
    match (asked, entry.body()) {
        (Asked::Image(word), RecordBody::Image(css, mif, name)) => {
            let (css, mif) = (*css, *mif);
            is_at(word, Image { css, mif }) || is_named(word, *name)
        }
        (Asked::Unit(number), RecordBody::Unit(unit)) => unit.number == *number,
        (Asked::Path(word), RecordBody::Path(path)) => means_path(word, path.css, path.number),
        (Asked::Device(range), RecordBody::Device(device)) => {
            is_within(range, device.set, device.number)
        }
        _ => false,
    }
}

/// The names of a configuration's images, by channel subsystem and MIF image ID.
///
/// `AllocError` (M1): memory ran out.
pub fn image_names<A: Allocator>(alloc: Global, config: &Config<A>) -> Result<Vec<Name>, AllocError>
    ensures { IfOk result (λ names. names.items ≡ meaning.image_names config.now.records) }
{
    config
        .walk()
        .filter_map(|(_, entry)| name_of(entry))
        .collect(alloc)
}

/// The name of an image's record.
fn name_of<A: Allocator>(entry: &Record<A>) -> Option<Name>
    ensures { result ≡ meaning.name_of entry.now }
{
    match entry.body() {
        RecordBody::Image(_, _, name) => Some(*name),
        _ => None,
    }
}
