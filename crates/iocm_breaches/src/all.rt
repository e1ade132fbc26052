ghost use Rattle.std.specs.Prelude.{◌≡◌, ◌++◌, IfOk, OnOk};
ghost use Rattle.iocm_model.specs.Machine.Configuration.{records_of};
ghost use Rattle.iocm_model.specs.Machine.Numbering as numbering;
ghost use Rattle.iocm_rules.specs.Check.{to_v8, from_v9};
ghost use Rattle.iocm_breaches.specs.Breaches as model;

use crate::addresses::list_taken;
use crate::listed::list_breaches;
use crate::sought::{list_past_limit, list_shared};
use iocm_config::Config;
use iocm_device_rules::{AddressNotHeld, CandidateOfNoImage, WrongPathList, WrongUnits};
use iocm_rules::{Breach, NameOfNoImage, NameTwice, TooManyNames, WrongOnline};
use iocm_types::Rule;
use iocm_unit_rules::{WrongLinks, WrongPaths, WrongRanges};
use std::alloc::{AllocError, Allocator};

/// All breaches of the rules V1 to V14 by the numbers that devices have at opening: by rule, then by
/// key. A record that breaks several rules comes once for each. The time is about in proportion to the
/// records and to what they name; only where V14 may be broken, each unit is compared with those
/// before it on its paths.
///
/// `AllocError` (M1): memory ran out.
///
/// Promise: `check --all` finds exactly all breaches, by rule and then by key.
pub fn all_breaches<A: Allocator, B: Allocator + Copy>(
    alloc: B,
    config: &Config<A>,
) -> Result<Vec<Breach, B>, AllocError>
    ensures { IfOk result (λ all. all.items
        ≡ model.all_breaches config.now.records (numbering.opening config.now.records)) }
{
    let mut breaches = Vec::new(alloc);
    list_to_v8(&mut breaches, config)?;
    list_from_v9(&mut breaches, alloc, config)?;
    Ok(breaches)
}

/// Puts the breaches of V1 to V8 behind those that are listed.
fn list_to_v8<A: Allocator, B: Allocator>(
    breaches: &mut Vec<Breach, B>,
    config: &Config<A>,
) -> Result<(), AllocError>
    ensures { OnOk result (breaches.new.items ≡ breaches.old.items
        ++ model.breaches_of (to_v8 config.now.records) (records_of config.now.records)) }
{
    list_breaches(breaches, Rule::V1, config, &NameTwice)?;
    list_breaches(breaches, Rule::V2, config, &NameOfNoImage)?;
    list_breaches(breaches, Rule::V3, config, &TooManyNames)?;
    list_breaches(breaches, Rule::V4, config, &WrongOnline)?;
    list_breaches(breaches, Rule::V5, config, &WrongPaths)?;
    list_breaches(breaches, Rule::V6, config, &WrongLinks)?;
    list_breaches(breaches, Rule::V7, config, &WrongRanges)?;
    list_breaches(breaches, Rule::V8, config, &WrongUnits)?;
    Ok(())
}

/// Puts the breaches of V9 to V14 behind those that are listed.
fn list_from_v9<A: Allocator, B: Allocator, C: Allocator + Copy>(
    breaches: &mut Vec<Breach, B>,
    alloc: C,
    config: &Config<A>,
) -> Result<(), AllocError>
    ensures { OnOk result (breaches.new.items ≡ breaches.old.items
        ++ model.breaches_of (from_v9 config.now.records (numbering.opening config.now.records))
        (records_of config.now.records)) }
{
    list_breaches(breaches, Rule::V9, config, &AddressNotHeld)?;
    list_taken(breaches, alloc, config)?;
    list_breaches(breaches, Rule::V11, config, &WrongPathList)?;
    list_breaches(breaches, Rule::V12, config, &CandidateOfNoImage)?;
    list_past_limit(breaches, alloc, config)?;
    list_shared(breaches, alloc, config)?;
    Ok(())
}
