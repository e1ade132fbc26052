ghost use Rattle.std.specs.Prelude.{◌≡◌, ◌++◌, true, None, IfOk, OnOk};
ghost use Rattle.iocm_types.specs.declared.rule.Rule.TheVariants as rule;
ghost use Rattle.iocm_model.specs.Machine.Configuration.{records_of};
ghost use Rattle.iocm_model.specs.Machine.Numbering as numbering;
ghost use Rattle.iocm_model.specs.Rules.EachRule.{breaks_v13, breaks_v14};
ghost use Rattle.iocm_lookup.specs.First.{first_key};
ghost use Rattle.iocm_breaches.specs.Breaches.{breaches_of_rule};

use crate::listed::list_breaches;
use crate::sharing::AddressShared;
use iocm_config::Config;
use iocm_device_rules::{NumberPastLimit, first_past_limit_at_opening};
use iocm_lookup::{first_wanted, index_of};
use iocm_numbers::opening;
use iocm_rules::Breach;
use iocm_types::Rule;
use iocm_unit_rules::{WrongPaths, first_shared_address_at_opening};
use std::alloc::{AllocError, Allocator};

/// Puts the breaches of V13 behind those that are listed, by the numbers at opening. These are made
/// only where the rule is broken.
///
/// `AllocError` (M1): memory ran out.
pub fn list_past_limit<A: Allocator, B: Allocator, C: Allocator + Copy>(
    breaches: &mut Vec<Breach, B>,
    alloc: C,
    config: &Config<A>,
) -> Result<(), AllocError>
    ensures { OnOk result (breaches.new.items ≡ breaches.old.items
        ++ breaches_of_rule rule.V13 (breaks_v13 config.now.records (numbering.opening config.now.records))
        (records_of config.now.records)) }
{
    if first_past_limit_at_opening(alloc, config)?.is_none() {
        return Ok(());
    }
    let numbers = opening(alloc, config)?;
    let past = NumberPastLimit { numbers: &numbers };
    list_breaches(breaches, Rule::V13, config, &past)
}

/// Puts the breaches of V14 behind those that are listed. An index is made only where the rule may be
/// broken; then each unit is compared with those before it on its paths.
///
/// `AllocError` (M1): memory ran out.
pub fn list_shared<A: Allocator, B: Allocator, C: Allocator + Copy>(
    breaches: &mut Vec<Breach, B>,
    alloc: C,
    config: &Config<A>,
) -> Result<(), AllocError>
    ensures { OnOk result (breaches.new.items ≡ breaches.old.items
        ++ breaches_of_rule rule.V14 (breaks_v14 config.now.records) (records_of config.now.records)) }
{
    if is_none_shared(alloc, config)? {
        return Ok(());
    }
    let index = index_of(alloc, config)?;
    list_breaches(
        breaches,
        Rule::V14,
        config,
        &AddressShared { index: &index },
    )
}

/// Whether it is known that no unit shares an address. Where a path that a unit names isn't there, it
/// isn't known.
fn is_none_shared<A: Allocator, B: Allocator + Copy>(
    alloc: B,
    config: &Config<A>,
) -> Result<bool, AllocError>
    ensures { IfOk result (λ none. none ≡ true → first_key (breaks_v14 config.now.records) config.now.records ≡ None) }
{
    if first_wanted(config, &WrongPaths).is_some() {
        return Ok(false);
    }
    let shared = first_shared_address_at_opening(alloc, config)?;
    Ok(shared.is_none())
}
