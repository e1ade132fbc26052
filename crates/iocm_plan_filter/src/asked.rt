ghost use Rattle.std.specs.Prelude.{◌≡◌, ◌||◌, not, IfOk};
ghost use Rattle.iocm_types.specs.Key.{key_cmp};
ghost use Rattle.iocm_types.specs.declared.key.Key as key_type;
ghost use Rattle.iocm_table.specs.Slots.{rows};
ghost use Rattle.iocm_model.specs.Machine.Configuration.{lookup_of, records_of};
ghost use Rattle.iocm_filter.specs.Sieves.{has_key};
ghost use Rattle.iocm_filter.specs.Wanted as wanted;
ghost use Rattle.iocm_sight.specs.Seen.{sights_in};
ghost use Rattle.iocm_plan_filter.specs.Connected as meaning;
ghost use Rattle.iocm_plan_filter.specs.Left as left;

use crate::by_device::{devices_named, sees_any};
use crate::by_image::is_of_any;
use crate::by_path::is_of_paths;
use crate::by_unit::is_of_units;
use crate::keys::has_key;
use crate::ways::ways_to;
use iocm_config::Config;
use iocm_filter::Filters;
use iocm_sight::{DeviceKey, NamedSight, sights_asked};
use iocm_table::Table;
use iocm_types::Key;
use std::alloc::{AllocError, Global};

/// What filters ask for of two configurations, looked up once: the images before and after, the devices, and what
/// leads to these.
#[derive(Drop)]
pub(crate) struct Asked<'a> {
    filters: &'a Filters,
    old: &'a Config,
    new: &'a Config,
    before: Vec<NamedSight<'a>>,
    after: Vec<NamedSight<'a>>,
    devices: Vec<DeviceKey>,
    ways: Table<Key, ()>,
    ghost images_before: { before.items ≡ sights_in filters.now old.now.records (records_of old.now.records) },
    ghost images_after: { after.items ≡ sights_in filters.now new.now.records (records_of new.now.records) },
    ghost are_named: { devices.items ≡ meaning.devices_named filters.now old.now.records new.now.records },
    ghost lead: { (k : key_type.Key) → has_key (rows key_cmp ways) k
        ≡ meaning.is_among k (meaning.ways_to (lookup_of old.now.records) (lookup_of new.now.records) devices.items) },
}

impl<'a> Asked<'a> {
    /// What filters ask for of these configurations.
    pub(crate) fn new(
        alloc: Global,
        filters: &'a Filters,
        old: &'a Config,
        new: &'a Config,
    ) -> Result<Self, AllocError>
        ensures filters { IfOk result (λ asked. asked.filters.now ≡ filters.entry.now) }
        ensures old { IfOk result (λ asked. asked.old.now.records ≡ old.entry.now.records) }
        ensures new { IfOk result (λ asked. asked.new.now.records ≡ new.entry.now.records) }
    {
        let before = sights_asked(alloc, filters, old)?;
        let after = sights_asked(alloc, filters, new)?;
        let devices = devices_named(alloc, filters, old, new)?;
        let ways = ways_to(alloc, old, new, &devices)?;
        Ok(Asked {
            filters,
            old,
            new,
            before,
            after,
            devices,
            ways,
        })
    }
}

/// Whether of each kind nothing is asked for, or an object is connected with one of what is.
#[tactic(auto, unfolding(crate::specs::Left::is_asked))]
pub(crate) fn is_asked(asked: &Asked<'_>, key: &Key) -> bool
    ensures { result ≡ left.is_asked asked.now.filters.now asked.now.old.now.records asked.now.new.now.records
        key.now }
{
    is_of_images(asked, key)
        && is_of_devices(asked, key)
        && is_of_units_asked(asked, key)
        && is_of_paths_asked(asked, key)
}

/// Whether no image is asked for, or it is connected with one that is.
fn is_of_images(asked: &Asked<'_>, key: &Key) -> bool
    ensures { result ≡ (not (wanted.asks asked.now.filters.now.images)
        || (meaning.is_of_images asked.now.filters.now asked.now.old.now.records key.now
        || meaning.is_of_images asked.now.filters.now asked.now.new.now.records key.now)) }
{
    asked.filters.images().is_empty() || is_of_before(asked, key) || is_of_after(asked, key)
}

/// Whether it is connected with one of the images before.
fn is_of_before(asked: &Asked<'_>, key: &Key) -> bool
    ensures { result ≡ meaning.is_of_images asked.now.filters.now asked.now.old.now.records key.now }
{
    is_of_any(asked.old, &asked.before, key)
}

/// Whether it is with one of those after.
fn is_of_after(asked: &Asked<'_>, key: &Key) -> bool
    ensures { result ≡ meaning.is_of_images asked.now.filters.now asked.now.new.now.records key.now }
{
    is_of_any(asked.new, &asked.after, key)
}

/// Whether no device is asked for, or it is connected with one that is.
fn is_of_devices(asked: &Asked<'_>, key: &Key) -> bool
    ensures { result ≡ (not (wanted.asks asked.now.filters.now.devices) || meaning.is_of_devices asked.now.filters.now
        asked.now.old.now.records asked.now.new.now.records key.now) }
{
    asked.filters.devices().is_empty() || is_of_a_device(asked, key)
}

/// Whether it is connected with one of the devices.
fn is_of_a_device(asked: &Asked<'_>, key: &Key) -> bool
    ensures { result ≡ meaning.is_of_devices asked.now.filters.now asked.now.old.now.records
        asked.now.new.now.records key.now }
{
    match key {
        Key::Image(css, mif) => sees_any(asked.old, asked.new, *css, *mif, &asked.devices),
        _ => has_key(&asked.ways, key),
    }
}

/// Whether no control unit is asked for, or it is connected with one that is.
fn is_of_units_asked(asked: &Asked<'_>, key: &Key) -> bool
    ensures { result ≡ (not (wanted.asks asked.now.filters.now.units)
        || (meaning.is_of_units asked.now.filters.now asked.now.old.now.records key.now
        || meaning.is_of_units asked.now.filters.now asked.now.new.now.records key.now)) }
{
    asked.filters.units().is_empty()
        || is_of_units(asked.filters, asked.old, key)
        || is_of_units(asked.filters, asked.new, key)
}

/// Whether no path is asked for, or it is connected with one that is.
fn is_of_paths_asked(asked: &Asked<'_>, key: &Key) -> bool
    ensures { result ≡ (not (wanted.asks asked.now.filters.now.paths)
        || (meaning.is_of_paths asked.now.filters.now asked.now.old.now.records key.now
        || meaning.is_of_paths asked.now.filters.now asked.now.new.now.records key.now)) }
{
    asked.filters.paths().is_empty()
        || is_of_paths(asked.filters, asked.old, key)
        || is_of_paths(asked.filters, asked.new, key)
}
