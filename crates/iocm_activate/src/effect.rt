ghost use Rattle.std.specs.Prelude.{◌≡◌, ◌++◌, IfOk, OnOk};
ghost use Rattle.std.specs.FinMap as map;
ghost use Rattle.iocm_types.specs.Key.{key_cmp};
ghost use Rattle.iocm_types.specs.Place.{cell_cmp};
ghost use Rattle.iocm_model.specs.Machine.Numbering.{cells_of};
ghost use Rattle.iocm_model.specs.Change.Effect.{values_in};
ghost use Rattle.iocm_model.specs.Change.Maps.{cells_at};
ghost use Rattle.iocm_activate.specs.Cells.{cells_in};
ghost use Rattle.iocm_activate.specs.Effects.{cells_changed, cells_told, effect_in, numbers_told};
ghost use Rattle.iocm_activate.specs.Effects.{subchannels_changed, subchannels_told};
ghost use Rattle.iocm_activate.specs.Told as told;
ghost use Rattle.std.specs.Prelude.{map as map_list};
ghost use Rattle.iocm_types.specs.SubId.{sub_id_cmp};

use crate::log::Log;
use crate::only_edit::effect_of_one;
use crate::written::Written;
use iocm_config::Config;
use iocm_numbers::{NumberChange, Numbers};
use iocm_plant::{Applied, Plant};
use iocm_record::Record;
use iocm_seats::ViewChange;
use iocm_types::{DevNo, Key, Live, NumberCell, SubId, sorted_once};
use std::alloc::{AllocError, Global};

/// The effect of a change: the cells that it wrote, each with its value after the change; none
/// where there is nothing any more. Also a cell is among them that one edit wrote and a later one
/// put back. The word is own.
#[derive(Drop)]
pub struct Effect {
    /// The records, under the keys of the edits.
    pub records: Written<Key, Record>,
    /// The devices that have the numbers.
    pub numbers: Written<NumberCell, DevNo>,
    /// The live records of the subchannels that were altered.
    pub lives: Written<SubId, Live>,
}

/// The effect of the edits of a log, which led to the state as it is.
///
/// `AllocError` (M1): memory ran out.
pub fn effect_of(alloc: Global, plant: &Plant, log: &Log) -> Result<Effect, AllocError>
    requires told { told.HaveLedTo log.now.done.items plant.now.state }
    ensures { IfOk result (λ e. effect_in e ≡ values_in plant.now.state (cells_told log.now)) }
{
    if let [only] = log.done.as_slice() {
        return effect_of_one(alloc, plant, log.keys.as_slice(), &only.touched);
    }
    let records = written_records(alloc, plant.config(), log.keys.as_slice())?;
    let numbers = written_numbers(alloc, plant.numbers(), log.done.as_slice())?;
    let lives = written_lives(alloc, plant, log.done.as_slice())?;
    Ok(Effect {
        records,
        numbers,
        lives,
    })
}

/// The records under these keys.
///
/// `AllocError` (M1): memory ran out.
pub fn written_records(
    alloc: Global,
    config: &Config,
    keys: &[Key],
) -> Result<Written<Key, Record>, AllocError>
    ensures { IfOk result (λ cells. cells_in key_cmp cells ≡ cells_at config.now.records keys.now) }
{
    let once = sorted_once(Vec::from_slice(alloc, keys)?)?;
    let listed = list_records(alloc, config, once.as_slice())?;
    Ok(Written::of(listed))
}

/// Keys with copies of their records.
fn list_records(
    alloc: Global,
    config: &Config,
    keys: &[Key],
) -> Result<Vec<(Key, Option<Record>)>, AllocError>
    ensures { IfOk result (λ listed. listed.items ≡ map_list (λ key. (key, map.get config.now.records key)) keys.now) }
{
    let mut listed = Vec::with_capacity(alloc, keys.len())?;
    for key in keys {
        let value = record_at(alloc, config, key)?;
        listed.push((*key, value))?;
    }
    Ok(listed)
}

/// A copy of the record under a key.
fn record_at(alloc: Global, config: &Config, key: &Key) -> Result<Option<Record>, AllocError>
    ensures { IfOk result (λ entry. entry ≡ map.get config.now.records key.now) }
{
    match config.get(key) {
        Some(entry) => Ok(Some(entry.copy_in(alloc)?)),
        None => Ok(None),
    }
}

/// The number cells that edits changed, with the devices that have them now.
fn written_numbers(
    alloc: Global,
    numbers: &Numbers,
    done: &[Applied],
) -> Result<Written<NumberCell, DevNo>, AllocError>
    ensures { IfOk result (λ cells. cells_in cell_cmp cells
        ≡ cells_at (cells_of numbers.now.numbers) (numbers_told (map_list told.told_in done.now))) }
{
    let once = sorted_once(list_changed(alloc, done)?)?;
    let listed = list_devices(alloc, numbers, once.as_slice())?;
    Ok(Written::of(listed))
}

/// The number cells that edits changed, edit by edit.
fn list_changed(alloc: Global, done: &[Applied]) -> Result<Vec<NumberCell>, AllocError>
    ensures { IfOk result (λ listed. listed.items ≡ numbers_told (map_list told.told_in done.now)) }
{
    let mut listed = Vec::new(alloc);
    for applied in done {
        list_cells(&mut listed, applied.touched.numbers.as_slice())?;
    }
    Ok(listed)
}

/// Puts the number cells that an edit changed after those that are listed.
fn list_cells(listed: &mut Vec<NumberCell>, changes: &[NumberChange]) -> Result<(), AllocError>
    ensures { OnOk result (listed.new.items ≡ listed.old.items ++ cells_changed changes.now) }
{
    listed.reserve(changes.len())?;
    for change in changes {
        listed.push(change.cell)?;
    }
    Ok(())
}

/// Number cells with the devices that have them now.
fn list_devices(
    alloc: Global,
    numbers: &Numbers,
    cells: &[NumberCell],
) -> Result<Vec<(NumberCell, Option<DevNo>)>, AllocError>
    ensures { IfOk result (λ listed. listed.items
        ≡ map_list (λ cell. (cell, map.get (cells_of numbers.now.numbers) cell)) cells.now) }
{
    let mut listed = Vec::with_capacity(alloc, cells.len())?;
    for cell in cells {
        listed.push((*cell, numbers.device_at(*cell)))?;
    }
    Ok(listed)
}

/// The subchannels that edits altered, with their live records now.
fn written_lives(
    alloc: Global,
    plant: &Plant,
    done: &[Applied],
) -> Result<Written<SubId, Live>, AllocError>
    ensures { IfOk result (λ cells. cells_in sub_id_cmp cells
        ≡ cells_at plant.now.state.lives (subchannels_told (map_list told.told_in done.now))) }
{
    let once = sorted_once(list_altered(alloc, done)?)?;
    let listed = list_lives(alloc, plant, once.as_slice())?;
    Ok(Written::of(listed))
}

/// The subchannels that edits altered, edit by edit.
fn list_altered(alloc: Global, done: &[Applied]) -> Result<Vec<SubId>, AllocError>
    ensures { IfOk result (λ listed. listed.items ≡ subchannels_told (map_list told.told_in done.now)) }
{
    let mut listed = Vec::new(alloc);
    for applied in done {
        list_subchannels(&mut listed, applied.touched.subchannels.as_slice())?;
    }
    Ok(listed)
}

/// Puts the subchannels that an edit altered after those that are listed.
fn list_subchannels(listed: &mut Vec<SubId>, changes: &[ViewChange]) -> Result<(), AllocError>
    ensures { OnOk result (listed.new.items ≡ listed.old.items ++ subchannels_changed changes.now) }
{
    listed.reserve(changes.len())?;
    for change in changes {
        listed.reserve(1)?;
        listed.push_reserved(change.subchannel);
    }
    Ok(())
}

/// Subchannels with their live records now.
fn list_lives(
    alloc: Global,
    plant: &Plant,
    subchannels: &[SubId],
) -> Result<Vec<(SubId, Option<Live>)>, AllocError>
    ensures { IfOk result (λ listed. listed.items
        ≡ map_list (λ x. (x, map.get plant.now.state.lives x)) subchannels.now) }
{
    let mut listed = Vec::with_capacity(alloc, subchannels.len())?;
    for subchannel in subchannels {
        listed.reserve(1)?;
        listed.push_reserved((*subchannel, plant.live(*subchannel)));
    }
    Ok(listed)
}
