ghost use Rattle.std.specs.Prelude.{◌≡◌, ◌<◌, ◌+◌, ◌^◌, ◌∷◌, [], ℕ, get_or};
ghost use Rattle.std.specs.List.{list_any};
ghost use Rattle.iocm_model.specs.Machine.Configuration.{records_of};
ghost use Rattle.iocm_model.specs.Machine.Numbering as numbering;
ghost use Rattle.iocm_device_rules.specs.SetCounts as counts;

use crate::limits::limit_in;
use iocm_config::Config;
use iocm_lookup::{RecordKind, records_of_kind, subsystems};
use iocm_record::{Record, RecordBody};
use iocm_types::{Css, SetNo};
use std::alloc::Allocator;

/// Whether some set has more devices than its limit in some channel subsystem. One that hasn't
/// gives no device a number at or above the limit at opening. Where there are no more records than
/// each limit, no device is counted; else the time is that of a walk over the devices.
pub fn is_any_set_over<A: Allocator>(config: &Config<A>) -> bool
    ensures { result ≡ list_any (λ css. list_any (counts.is_set_over config.now.records css) numbering.sets)
        numbering.subsystems }
{
    let most = config.len();
    if !is_any_limit_below(config, &[most; 4]) {
        return false;
    }
    is_any_limit_below(config, &count_devices(config))
}

/// Whether in some channel subsystem the limit of a set is less than the number that is given for
/// it.
fn is_any_limit_below<A: Allocator>(config: &Config<A>, in_sets: &[usize; 4]) -> bool
    ensures { result ≡ list_any (counts.is_limit_below_in config.now.records in_sets.now) numbering.subsystems }
{
    let all = subsystems();
    for css in all.as_slice() {
        if is_limit_below_in(config, in_sets, *css) {
            return true;
        }
    }
    false
}

/// Whether in a channel subsystem the limit of a set is less than the number that is given for it.
fn is_limit_below_in<A: Allocator>(config: &Config<A>, in_sets: &[usize; 4], css: Css) -> bool
    ensures { result ≡ counts.is_limit_below_in config.now.records in_sets.now css }
{
    is_limit_below(config, in_sets, css, 0)
        || is_limit_below(config, in_sets, css, 1)
        || is_limit_below(config, in_sets, css, 2)
        || is_limit_below(config, in_sets, css, 3)
}

/// Whether the limit of the set of a number in a channel subsystem is less than the number that is
/// given for it.
fn is_limit_below<A: Allocator>(
    config: &Config<A>,
    in_sets: &[usize; 4],
    css: Css,
    number: u8,
) -> bool
    requires { number < 4 }
    ensures { result ≡ counts.is_limit_below config.now.records in_sets.now css number }
{
    let Some(set) = SetNo::new(number) else {
        unreachable!()
    };
    usize::from(limit_in(config, css, set)) < in_sets[usize::from(number)]
}

/// How many devices each set has.
fn count_devices<A: Allocator>(config: &Config<A>) -> [usize; 4]
    ensures { (s : ℕ) → s < 4 → get_or result s 0 ≡ counts.count_among s (records_of config.now.records) }
{
    let mut in_sets = [0usize; 4];
    for entry in records_of_kind(config, RecordKind::Device) {
        count_record(&mut in_sets, entry);
    }
    in_sets
}

/// Counts one record more: a device in its set, others nowhere.
fn count_record<A: Allocator>(in_sets: &mut [usize; 4], entry: &Record<A>)
    requires { (s : ℕ) → s < 4 → get_or in_sets.old s 0 + 1 < 2 ^ 64 }
    ensures { (s : ℕ) → s < 4
        → get_or in_sets.new s 0 ≡ get_or in_sets.old s 0 + counts.count_among s (entry.now ∷ []) }
{
    if let RecordBody::Device(fields) = entry.body() {
        in_sets[usize::from(fields.set.number())] += 1;
    }
}
