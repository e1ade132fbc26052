ghost use Rattle.std.specs.Prelude.{◌≡◌, ◌≤◌, [], IfOk};
ghost use Rattle.std.specs.FinMap.{entries};
ghost use Rattle.std.specs.Map.{values_of};
ghost use Rattle.std.specs.Vec.{vec_capacity};
ghost use Rattle.iocm_history.specs.InUse.{IsInUse};
ghost use Rattle.iocm_model.specs.Laws.Trees.{KeepsTheRules};
ghost use Rattle.iocm_model.specs.Operation.State.{opening_state};
ghost use Rattle.iocm_core.specs.Running.{IsInstallationOf};

use crate::installation::Installation;
use crate::{Core, Entry};
use iocm_activate::Effects;
use iocm_config::Config;
use iocm_journal::Journal;
use iocm_plant::Plant;
use iocm_record::Record;
use std::alloc::{AllocError, Global};

impl Core {
    /// Begins to record what is asked of a machine that was just opened. The trace has room for so
    /// many entries; the memory for them is made now, so that no call needs memory for its entry.
    ///
    /// `AllocError` (M1): memory ran out.
    pub fn open(alloc: Global, plant: Plant, room: usize) -> Result<Core, AllocError>
        requires fresh { plant.state ≡ opening_state plant.state.config }
        requires rules { KeepsTheRules plant.state }
        ensures { IfOk result (λ core. core
            ≡ record { opening = plant.state; history = []; entries = []; room = room }) }
    {
        // For the proof alone: the state is sound.
        plant.is_sound();
        let Prepared { opening, entries } = Prepared::for_trace(alloc, plant.config(), room)?;
        Ok(Core {
            installation: installation(alloc, plant),
            opening,
            entries,
            room,
        })
    }
}

/// What a trace begins with: a copy of the configuration, and memory for its entries.
#[derive(Drop)]
struct Prepared {
    opening: Config,
    entries: Vec<Entry>,
}

impl Prepared {
    fn for_trace(alloc: Global, config: &Config, room: usize) -> Result<Prepared, AllocError>
        ensures opening { IfOk result (λ p. p.opening.records ≡ config.now.records) }
        ensures entries { IfOk result (λ p. p.entries.items ≡ []) }
        ensures room { IfOk result (λ p. room ≤ vec_capacity p.entries) }
    {
        let opening = copy_of(alloc, config)?;
        let entries = Vec::with_capacity(alloc, room)?;
        Ok(Prepared { opening, entries })
    }
}

/// A copy of a configuration.
fn copy_of(alloc: Global, config: &Config) -> Result<Config, AllocError>
    ensures { IfOk result (λ copy. copy.records ≡ config.now.records) }
{
    // For the proof alone: each record stands under its own key.
    config.has_own_keys();
    let records = copies_of(alloc, config)?;
    Config::from_records(alloc, records)
}

/// Copies of the records of a configuration, in the order of keys.
fn copies_of(alloc: Global, config: &Config) -> Result<Vec<Record>, AllocError>
    ensures { IfOk result (λ copies. copies.items ≡ values_of (entries config.now.records)) }
{
    let mut copies = Vec::with_capacity(alloc, config.len())?;
    for (_, entry) in config.walk() {
        let copy = entry.copy_in(alloc)?;
        copies.push(copy)?;
    }
    Ok(copies)
}

/// A machine in operation of which nothing was asked yet, with an empty journal.
fn installation(alloc: Global, plant: Plant) -> Installation
    requires used { IsInUse plant.state }
    ensures installation { IsInstallationOf plant.state [] result }
    ensures changes { result.changes.items ≡ [] }
{
    Installation {
        plant,
        journal: Journal::new(alloc),
        stage: None,
        changes: Effects::new(alloc),
    }
}
