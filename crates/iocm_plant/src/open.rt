ghost use Rattle.std.specs.Prelude.{◌≡◌, None, IfOk, IfErr, OnOk};
ghost use Rattle.iocm_types.specs.declared.refused.At.TheVariants as at;
ghost use Rattle.iocm_model.specs.Change.Refusal.{refusal_at};
ghost use Rattle.iocm_model.specs.Laws.Trees.{KeepsTheRules};
ghost use Rattle.iocm_model.specs.Operation.State.{opening_state};
ghost use Rattle.iocm_plant.specs.Operating.{IsOperating, state_of};
ghost use Rattle.iocm_reach.specs.Tabled.{IsReachOf};
ghost use Rattle.iocm_plant.specs.Refusing.{opening_refusal, Hinders, IsDue};

use crate::Plant;
use crate::obstacle::Obstacle;
use iocm_config::Config;
use iocm_index::Index;
use iocm_lookup::index_of;
use iocm_numbers::{Numbers, opening};
use iocm_reach::ReachTable;
use iocm_rules::{Breach, check_at_opening};
use iocm_seats::{Seats, open_seats};
use iocm_types::{At, Refused};
use std::alloc::Global;

/// A machine that was not opened: why, and the configuration, given back.
#[derive(Drop)]
pub struct Unopened {
    /// The rule that is broken, V1 to V14, with the key of the record that breaks it; or M1.
    pub why: Refused,
    /// The configuration.
    pub config: Config,
}

/// The tables of a machine beside its configuration.
#[derive(Drop)]
struct Tables {
    numbers: Numbers,
    index: Index,
    seats: Seats,
    reach: ReachTable,
}

impl Plant {
    /// A machine with this configuration, which keeps the rules: the first subchannel numbers, and
    /// a fresh live record for each subchannel that is seen.
    ///
    /// The first breach of V1 to V14, by rule, then by key; M1, which may stand in its place:
    /// memory ran out.
    ///
    /// Promise: a machine is opened only with a configuration that keeps all rules.
    pub fn open(alloc: Global, config: Config) -> Result<Plant, Unopened>
        ensures opened { IfOk result (λ plant. plant.state ≡ opening_state config.records) }
        ensures kept { OnOk result (opening_refusal config.records ≡ None) }
        ensures rules { IfOk result (λ plant. KeepsTheRules plant.state) }
        ensures refused { IfErr result (λ e. IsDue (opening_refusal config.records) e.why) }
        ensures config { IfErr result (λ e. e.config ≡ config) }
    {
        match make_tables(alloc, &config) {
            Ok(tables) => Ok(Plant {
                config,
                numbers: tables.numbers,
                index: tables.index,
                seats: tables.seats,
                reach: tables.reach,
            }),
            Err(obstacle) => Err(Unopened {
                why: obstacle.refusal(),
                config,
            }),
        }
    }
}

/// The tables of a machine with this configuration, if it keeps the rules.
fn make_tables(alloc: Global, config: &Config) -> Result<Tables, Obstacle>
    ensures operating { IfOk result (λ t. IsOperating config.now.records t.numbers.numbers t.index t.seats.seats) }
    ensures reach { IfOk result (λ t. IsReachOf config.now.records t.reach) }
    ensures state { IfOk result (λ t. state_of config.now.records t.numbers.numbers t.seats.seats
        ≡ opening_state config.now.records) }
    ensures kept { OnOk result (opening_refusal config.now.records ≡ None) }
    ensures rules { OnOk result (KeepsTheRules (opening_state config.now.records)) }
    ensures refused { IfErr result (Hinders (opening_refusal config.now.records)) }
{
    // For the proof alone: each record stands under its own key.
    config.has_own_keys();
    if let Some(breach) = check_at_opening(alloc, config)? {
        return Err(Obstacle::Refused(breach_refusal(breach)));
    }
    let numbers = opening(alloc, config)?;
    let index = index_of(alloc, config)?;
    let seats = open_seats(alloc, config, &numbers)?;
    let reach = ReachTable::new(alloc, config)?;
    Ok(Tables {
        numbers,
        index,
        seats,
        reach,
    })
}

/// The refusal for a breach: its rule, and the record that breaks it.
fn breach_refusal(breach: Breach) -> Refused
    ensures { result ≡ refusal_at breach.rule (at.Key breach.key) }
{
    Refused::about(breach.rule, At::Key(breach.key))
}
