ghost use Rattle.std.specs.Prelude.{◌≡◌, IfOk};
ghost use Rattle.std.specs.List.{list_any};
ghost use Rattle.iocm_lookup.specs.Indexed.{IsIndexOf};
ghost use Rattle.iocm_filter.specs.Wanted.{have_common};
ghost use Rattle.iocm_sight.specs.Connected.{asked_images};
ghost use Rattle.iocm_sight.specs.Connected as meaning;

use crate::image_paths::reaches;
use crate::{AskedImage, DeviceKey, asked_images};
use iocm_config::Config;
use iocm_filter::{DeviceRange, Filters, PathWord, is_within, means_path};
use iocm_index::Index;
use iocm_lookup::index_of;
use iocm_types::{CssPath, UnitNo};
use std::alloc::{AllocError, Global};

/// A configuration with what filters ask for: who names whom in it, and its images that are asked for.
#[derive(Drop)]
pub struct Listing<'a> {
    pub filters: &'a Filters,
    pub config: &'a Config,
    pub index: Index,
    pub images: Vec<AskedImage>,
    ghost indexed: { IsIndexOf config.now.records index },
    ghost asked: { images.items ≡ asked_images filters.now config.now.records },
}

impl<'a> Listing<'a> {
    /// That of a configuration. The time is that of listing who names whom, and of sorting it.
    ///
    /// `AllocError` (M1): memory ran out.
    pub fn new(alloc: Global, filters: &'a Filters, config: &'a Config) -> Result<Self, AllocError>
        ensures filters { IfOk result (λ l. l.filters.now ≡ filters.entry.now) }
        ensures records { IfOk result (λ l. l.config.now.records ≡ config.entry.now.records) }
    {
        let index = index_of(alloc, config)?;
        let images = asked_images(alloc, filters, config)?;
        Ok(Listing {
            filters,
            config,
            index,
            images,
        })
    }
}

/// Whether of each kind nothing is asked for, or one of these paths, control units and devices is
/// connected with one of what is.
pub fn wants_each(
    listing: &Listing<'_>,
    paths: &[CssPath],
    units: &[UnitNo],
    devices: &[DeviceKey],
) -> bool
    ensures { result ≡ meaning.wants_each listing.now.filters.now listing.now.config.now.records paths.now units.now
        devices.now }
{
    wants_reached(listing, paths)
        && wants_paths(listing.filters, paths)
        && wants_units(listing.filters, units)
        && wants_devices(listing.filters, devices)
}

/// Whether no image is asked for, or one that is reaches one of these paths.
fn wants_reached(listing: &Listing<'_>, paths: &[CssPath]) -> bool
    ensures { result ≡ meaning.wants_reached listing.now.filters.now listing.now.config.now.records paths.now }
{
    listing.filters.images().is_empty()
        || is_any_reached(listing.config, paths, listing.images.as_slice())
}

fn is_any_reached(config: &Config, paths: &[CssPath], images: &[AskedImage]) -> bool
    ensures { result ≡ meaning.is_any_reached config.now.records paths.now images.now }
{
    paths
        .iter()
        .any(|path| is_reached_by_any(config, path, images))
}

fn is_reached_by_any(config: &Config, path: &CssPath, images: &[AskedImage]) -> bool
    ensures { result ≡ list_any (meaning.is_reached_by config.now.records path.now) images.now }
{
    images.iter().any(|image| image.css == path.css
        && reaches(config, path.css, image.name, path.path))
}

/// Whether no path is asked for, or one of these is.
pub fn wants_paths(filters: &Filters, paths: &[CssPath]) -> bool
    ensures { result ≡ meaning.wants_paths filters.now paths.now }
{
    let words = filters.paths();
    words.is_empty() || is_any_meant(words, paths)
}

fn is_any_meant(words: &[PathWord], paths: &[CssPath]) -> bool
    ensures { result ≡ list_any (λ word. list_any (meaning.means word) paths.now) words.now }
{
    words.iter().any(|word| means_any(word, paths))
}

fn means_any(word: &PathWord, paths: &[CssPath]) -> bool
    ensures { result ≡ list_any (meaning.means word.now) paths.now }
{
    paths
        .iter()
        .any(|path| means_path(word, path.css, path.path))
}

/// Whether no control unit is asked for, or one of these is.
pub fn wants_units(filters: &Filters, units: &[UnitNo]) -> bool
    ensures { result ≡ meaning.wants_units filters.now units.now }
{
    let asked = filters.units();
    asked.is_empty() || have_common(asked, units)
}

/// Whether one of these control units is among others.
fn have_common(units: &[UnitNo], others: &[UnitNo]) -> bool
    ensures { result ≡ have_common units.now others.now }
{
    units.iter().any(|unit| others.contains(unit))
}

/// Whether no device is asked for, or one of these is.
fn wants_devices(filters: &Filters, devices: &[DeviceKey]) -> bool
    ensures { result ≡ meaning.wants_devices filters.now devices.now }
{
    let ranges = filters.devices();
    ranges.is_empty() || is_any_in(ranges, devices)
}

fn is_any_in(ranges: &[DeviceRange], devices: &[DeviceKey]) -> bool
    ensures { result ≡ list_any (λ range. list_any (meaning.is_in range) devices.now) ranges.now }
{
    ranges.iter().any(|range| has_any(range, devices))
}

fn has_any(range: &DeviceRange, devices: &[DeviceKey]) -> bool
    ensures { result ≡ list_any (meaning.is_in range.now) devices.now }
{
    devices
        .iter()
        .any(|device| is_within(range, device.set, device.number))
}
