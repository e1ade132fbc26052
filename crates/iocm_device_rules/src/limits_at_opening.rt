ghost use Rattle.std.specs.Prelude.{◌≡◌, IfOk};
ghost use Rattle.std.specs.List.{list_any};
ghost use Rattle.iocm_model.specs.Machine.Configuration.{lookup_of};
ghost use Rattle.iocm_model.specs.Machine.Numbering as numbering;
ghost use Rattle.iocm_model.specs.Rules.EachRule as model;
ghost use Rattle.iocm_lookup.specs.First.{first_key};
ghost use Rattle.iocm_numbers.specs.Opening.{rows_at_opening};
ghost use Rattle.iocm_device_rules.specs.Past as past;

use crate::limits::{first_limit, first_past_limit, limit_of_cell};
use crate::set_counts::is_any_set_over;
use iocm_config::Config;
use iocm_numbers::{opening, opening_rows};
use iocm_types::{Key, NumberCell, Place};
use std::alloc::{AllocError, Allocator};

/// V13 with the numbers at opening: the key of the first device that breaks it, if one does. Where
/// no set has more devices than a limit of it, as is the rule, their count tells, without memory.
/// Where a set has, the numbers are listed; only where one of these is at or above its limit is a
/// table made of them.
///
/// `AllocError` (M1): memory ran out.
pub fn first_past_limit_at_opening<A: Allocator, B: Allocator + Copy>(
    alloc: B,
    config: &Config<A>,
) -> Result<Option<Key>, AllocError>
    ensures { IfOk result (λ past. past ≡ first_key
        (model.breaks_v13 config.now.records (numbering.opening config.now.records)) config.now.records) }
{
    if !is_any_set_over(config) {
        return Ok(None);
    }
    if !is_any_past_at_opening(alloc, config)? {
        return Ok(None);
    }
    let numbers = opening(alloc, config)?;
    Ok(first_past_limit(config, &numbers))
}

/// Whether a number at opening is at or above the limit of its channel subsystem and set.
fn is_any_past_at_opening<A: Allocator, B: Allocator + Copy>(
    alloc: B,
    config: &Config<A>,
) -> Result<bool, AllocError>
    ensures { IfOk result (λ answer. answer
        ≡ list_any (past.is_row_past (lookup_of config.now.records)) (rows_at_opening config.now.records)) }
{
    let rows = opening_rows(alloc, config)?;
    Ok(is_any_row_past(config, rows.as_slice()))
}

/// Whether one of these numbers, each at its place, is at or above the limit of its channel
/// subsystem and set.
#[tactic(auto, using(iocm_types::proofs::Any::any_steps))]
fn is_any_row_past<A: Allocator>(config: &Config<A>, rows: &[(Place, u16)]) -> bool
    ensures { result ≡ list_any (past.is_row_past (lookup_of config.now.records)) rows.now }
{
    let mut last = first_limit(config);
    for row in rows {
        let cell = NumberCell {
            css: row.0.css,
            set: row.0.set,
            number: row.1,
        };
        last = limit_of_cell(config, &last, &cell);
        if last.limit <= row.1 {
            return true;
        }
    }
    false
}
