ghost use Rattle.std.specs.Prelude.{◌≡◌, ◌||◌, ◌++◌, map, filter, IfOk, OnOk};
ghost use Rattle.std.specs.List.{flat_map, list_any};
ghost use Rattle.iocm_types.specs.Key.{key_cmp};
ghost use Rattle.iocm_types.specs.declared.key.Key as key_type;
ghost use Rattle.iocm_types.specs.declared.key.Key.TheVariants as key_of;
ghost use Rattle.iocm_table.specs.Slots.{rows};
ghost use Rattle.iocm_filter.specs.Sieves.{has_key};
ghost use Rattle.iocm_plan.specs.RunEffects as images_in;
ghost use Rattle.iocm_plan.specs.Runs.{runs_asked};
ghost use Rattle.iocm_plan.specs.Seen.{paths_of};
ghost use Rattle.iocm_plan_filter.specs.Connected.{is_among};
ghost use Rattle.iocm_plan_filter.specs.Lost as meaning;

use crate::keys::{has_key, put_keys};
use crate::steps::device_at;
use crate::ways::put_units;
use iocm_config::Config;
use iocm_filter::Filters;
use iocm_plan::{DeviceRun, Effect, effects_on_runs, images_of_both, runs_asked};
use iocm_sight::DeviceKey;
use iocm_table::Table;
use iocm_types::{Chpid, Css, DevNo, Image, Key, SetNo, View};
use std::alloc::{AllocError, Global};

/// A run of devices with what a change does to an image and each of them.
#[derive(Clone, Copy)]
pub struct RunEffect {
    /// The run.
    pub run: DeviceRun,
    /// What the change does.
    pub effect: Effect,
}

/// What was on the way of devices that are lost: the keys of images, of control units, of paths, and of the first device
/// of each run; and these runs.
#[derive(Drop)]
pub(crate) struct Lost {
    pub keys: Table<Key, ()>,
    pub runs: Vec<DeviceRun>,
}

/// Whether an object was on the way of a device that is lost.
pub(crate) fn was_on_way(lost: &Lost, key: &Key) -> bool
    ensures { result ≡ meaning.is_on_way (λ k. has_key (rows key_cmp lost.now.keys) k) lost.now.runs.items key.now }
{
    match key {
        Key::Device(set, number) => is_in_any(&lost.runs, *set, *number),
        _ => has_key(&lost.keys, key),
    }
}

/// Whether a device is in one of these runs.
fn is_in_any(runs: &[DeviceRun], set: SetNo, number: DevNo) -> bool
    ensures { result ≡ list_any (meaning.is_in_run set number) runs.now }
{
    runs.iter().any(|run| is_in_run(run, set, number))
}

/// Whether a device is in a run.
fn is_in_run(run: &DeviceRun, set: SetNo, number: DevNo) -> bool
    ensures { result ≡ meaning.is_in_run set number run.now }
{
    let first = usize::from(run.first.number.number());
    let own = usize::from(number.number());
    run.first.set == set && first <= own && own - first < run.count
}

/// What was on the way of the devices that are lost, of those that filters ask for. The time is that of a look at each
/// run of devices for each image.
pub(crate) fn lost_by(
    alloc: Global,
    filters: &Filters,
    old: &Config,
    new: &Config,
) -> Result<Lost, AllocError>
    ensures keys { IfOk result (λ lost. (k : key_type.Key) → has_key (rows key_cmp lost.keys) k
        ≡ is_among k (meaning.ways_lost filters.now old.now.records new.now.records)) }
    ensures runs { IfOk result
        (λ lost. lost.runs.items ≡ meaning.runs_lost filters.now old.now.records new.now.records) }
{
    let runs = runs_asked(alloc, filters, old, new)?;
    let images = images_of_both(alloc, old, new)?;
    let keys = ways_lost(alloc, filters, old, new, &runs, &images)?;
    let runs = runs_with(alloc, &keys, &runs)?;
    Ok(Lost { keys, runs })
}

/// Of these runs those of which the first device is among these keys.
fn runs_with(
    alloc: Global,
    keys: &Table<Key, ()>,
    runs: &[DeviceRun],
) -> Result<Vec<DeviceRun>, AllocError>
    ensures { IfOk result (λ left. left.items
        ≡ filter (λ r. has_key (rows key_cmp keys.now) (meaning.first_key r)) runs.now) }
{
    runs.iter()
        .copied()
        .filter(|run| has_key(keys, &Key::Device(run.first.set, run.first.number)))
        .collect(alloc)
}

/// The ways of the runs that are lost to these images.
fn ways_lost(
    alloc: Global,
    filters: &Filters,
    old: &Config,
    new: &Config,
    runs: &[DeviceRun],
    images: &[Image],
) -> Result<Table<Key, ()>, AllocError>
    ensures { IfOk result (λ keys. (k : key_type.Key) → has_key (rows key_cmp keys) k ≡ is_among k
        (flat_map (meaning.ways_lost_to filters.now old.now.records new.now.records runs.now) images.now)) }
{
    let mut keys = Table::new(alloc);
    for image in images {
        let lost = lost_to(alloc, filters, old, new, runs, image)?;
        put_ways(&mut keys, alloc, old, image, &lost)?;
    }
    Ok(keys)
}

/// Of these runs those that are lost to an image.
fn lost_to(
    alloc: Global,
    filters: &Filters,
    old: &Config,
    new: &Config,
    runs: &[DeviceRun],
    image: &Image,
) -> Result<Vec<RunEffect>, AllocError>
    ensures { IfOk result (λ lost. lost.items
        ≡ meaning.lost_to filters.now old.now.records new.now.records runs.now image.now) }
{
    let effects = effects_on_runs(alloc, filters, true, old, new, image, runs)?;
    lost_among(alloc, runs, &effects)
}

/// Of runs, of which these are the effects, those that are lost.
fn lost_among(
    alloc: Global,
    runs: &[DeviceRun],
    effects: &[Effect],
) -> Result<Vec<RunEffect>, AllocError>
    ensures { IfOk result (λ lost. lost.items ≡ meaning.lost_among runs.now effects.now) }
{
    runs.iter()
        .zip(effects)
        .map(|(run, effect)| RunEffect {
            run: *run,
            effect: *effect,
        })
        .filter(|run| run.effect.is_lost())
        .collect(alloc)
}

/// Puts the ways of runs that are lost to an image with other keys.
fn put_ways(
    keys: &mut Table<Key, ()>,
    alloc: Global,
    old: &Config,
    image: &Image,
    lost: &[RunEffect],
) -> Result<(), AllocError>
    ensures { OnOk result ((k : key_type.Key) → has_key (rows key_cmp keys.new) k ≡ (has_key (rows key_cmp keys.old) k
        || is_among k (flat_map (meaning.way_lost old.now.records image.now) lost.now))) }
{
    for run in lost {
        let way = way_lost(alloc, old, image, run)?;
        put_keys(keys, &way)?;
    }
    Ok(())
}

/// The way of a run that is lost to an image.
fn way_lost(
    alloc: Global,
    old: &Config,
    image: &Image,
    lost: &RunEffect,
) -> Result<Vec<Key>, AllocError>
    ensures { IfOk result (λ way. way.items ≡ meaning.way_lost old.now.records image.now lost.now) }
{
    let first = &lost.run.first;
    let mut way = Vec::new(alloc);
    way.push(Key::Image(image.css, image.mif))?;
    way.push(Key::Device(first.set, first.number))?;
    put_units_of(&mut way, old, first)?;
    put_paths(&mut way, image.css, &lost.effect.before)?;
    Ok(way)
}

/// Puts the keys of the control units of a device, if it is there, behind others.
fn put_units_of(way: &mut Vec<Key>, config: &Config, device: &DeviceKey) -> Result<(), AllocError>
    ensures { OnOk result (way.new.items
        ≡ way.old.items ++ meaning.unit_keys config.now.records device.now) }
{
    match device_at(config, device.set, device.number) {
        Some(fields) => put_units(way, fields.lists.units()),
        None => Ok(()),
    }
}

/// Puts the keys of the paths of a view, if there is one, behind others.
fn put_paths(way: &mut Vec<Key>, css: Css, view: &Option<View>) -> Result<(), AllocError>
    ensures { OnOk result (way.new.items ≡ way.old.items ++ map (key_of.Path css) (paths_of view.now)) }
{
    match view {
        Some(view) => put_own(way, css, view.paths.as_slice()),
        None => Ok(()),
    }
}

/// Puts the keys of paths of a channel subsystem behind others.
fn put_own(way: &mut Vec<Key>, css: Css, paths: &[Chpid]) -> Result<(), AllocError>
    ensures { OnOk result (way.new.items ≡ way.old.items ++ map (key_of.Path css) paths.now) }
{
    for path in paths {
        way.push(Key::Path(css, *path))?;
    }
    Ok(())
}
