ghost use Rattle.std.specs.Prelude.{◌≡◌, ◌++◌, ◌∷◌, [], OnOk};
ghost use Rattle.iocm_model.specs.Machine.Configuration.{records_of};
ghost use Rattle.iocm_breaches.specs.Breaches.{breaches_of_rule};

use iocm_config::Config;
use iocm_lookup::{Wanted, first_wanted, records_of_kind};
use iocm_record::Record;
use iocm_rules::Breach;
use iocm_types::Rule;
use std::alloc::{AllocError, Allocator};

/// Puts the breaches of a rule behind those that are listed, by key: of each record that is looked
/// for as one that breaks it. The time is that of one look at each record of its kind, and of
/// another one where one breaks the rule.
///
/// `AllocError` (M1): memory ran out.
pub fn list_breaches<A: Allocator, B: Allocator, W: Wanted<A>>(
    breaches: &mut Vec<Breach, B>,
    rule: Rule,
    config: &Config<A>,
    wanted: &W,
) -> Result<(), AllocError>
    requires { W.fits wanted.now config.now.records }
    ensures { OnOk result (breaches.new.items ≡ breaches.old.items
        ++ breaches_of_rule rule (W.wants wanted.now config.now.records) (records_of config.now.records)) }
{
    if first_wanted(config, wanted).is_none() {
        return Ok(());
    }
    for entry in records_of_kind(config, wanted.kind()) {
        list_if_wanted(breaches, rule, config, wanted, entry)?;
    }
    Ok(())
}

/// Puts a breach behind those that are listed, if the record is looked for.
fn list_if_wanted<A: Allocator, B: Allocator, W: Wanted<A>>(
    breaches: &mut Vec<Breach, B>,
    rule: Rule,
    config: &Config<A>,
    wanted: &W,
    entry: &Record<A>,
) -> Result<(), AllocError>
    requires { W.fits wanted.now config.now.records }
    ensures { OnOk result (breaches.new.items ≡ breaches.old.items
        ++ breaches_of_rule rule (W.wants wanted.now config.now.records) (entry.now ∷ [])) }
{
    let does_break = wanted.is_wanted(config, entry);
    list_if(breaches, rule, does_break, entry)
}

/// Puts a breach of a rule behind those that are listed, if the record breaks the rule.
pub fn list_if<A: Allocator, B: Allocator>(
    breaches: &mut Vec<Breach, B>,
    rule: Rule,
    does_break: bool,
    entry: &Record<A>,
) -> Result<(), AllocError>
    ensures { OnOk result (breaches.new.items ≡ breaches.old.items
        ++ breaches_of_rule rule (λ r. does_break) (entry.now ∷ [])) }
{
    if does_break {
        let key = entry.key();
        breaches.push(Breach { rule, key })?;
    }
    Ok(())
}
