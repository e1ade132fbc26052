ghost use Rattle.std.specs.Prelude.{◌≡◌, Some};
ghost use Rattle.std.specs.FinMap.{entries};
ghost use Rattle.std.specs.List.{list_any};
ghost use Rattle.iocm_model.specs.Machine.Configuration.{lookup_of};
ghost use Rattle.iocm_model.specs.Machine.Numbering as numbering;
ghost use Rattle.iocm_model.specs.Rules.EachRule as model;
ghost use Rattle.iocm_lookup.specs.First.{first_key};
ghost use Rattle.iocm_device_rules.specs.Past as past;

use iocm_config::Config;
use iocm_lookup::{RecordKind, Wanted, first_wanted, subsystems};
use iocm_numbers::Numbers;
use iocm_record::{Record, RecordBody};
use iocm_types::{Css, DevNo, Key, NumberCell, Place, SetNo};
use std::alloc::Allocator;

/// V13: in some channel subsystem the subchannel number of a device is at or above the limit of its
/// set there. Without a limit that is 65,280 in set 0 and 65,535 in the others (IOCP User's Guide,
/// MAXDEV keyword).
#[derive(Drop)]
pub struct NumberPastLimit<'a, N: Allocator> {
    pub numbers: &'a Numbers<N>,
}

impl<'a, A: Allocator, N: Allocator> Wanted<A> for NumberPastLimit<'a, N> {
    ghost use Rattle.std.specs.Prelude.{refl};
    ghost use Rattle.iocm_model.specs.Rules.EachRule.{breaks_v13};
    ghost use Rattle.iocm_lookup.specs.OfKind.{only_devices};

    ghost wants = { λ s c r. breaks_v13 c s.numbers.now.numbers r };

    ghost fits = { λ s c. Unit {0} };

    ghost place = { 6 };

    ghost of_kind = { λ s c. only_devices (breaks_v13 c s.numbers.now.numbers)
        (λ _. refl) (λ _. refl) (λ _. refl) (λ _. refl) (λ _. refl) (λ _. refl) (λ _. refl) };

    fn kind(&self) -> RecordKind {
        RecordKind::Device
    }

    fn is_wanted(&self, config: &Config<A>, entry: &Record<A>) -> bool {
        match entry.body() {
            RecordBody::Device(fields) => {
                is_past_limit(config, self.numbers, fields.set, fields.number)
            }
            _ => false,
        }
    }
}

/// The key of the first device that breaks V13, if one does. Where no number that is given away is
/// at or above its limit, as is the rule, one walk over the numbers tells, and no device is looked
/// at.
pub fn first_past_limit<A: Allocator, N: Allocator>(
    config: &Config<A>,
    numbers: &Numbers<N>,
) -> Option<Key>
    ensures { result ≡ first_key (model.breaks_v13 config.now.records numbers.now.numbers) config.now.records }
{
    if !is_any_past_limit(config, numbers) {
        return None;
    }
    first_wanted(config, &NumberPastLimit { numbers })
}

/// Whether a number that is given away is at or above the limit of its channel subsystem and set.
fn is_any_past_limit<A: Allocator, N: Allocator>(config: &Config<A>, numbers: &Numbers<N>) -> bool
    ensures { result ≡ list_any (past.is_past (lookup_of config.now.records))
        (entries (numbering.cells_of numbers.now.numbers)) }
{
    let mut last = first_limit(config);
    for (cell, _) in numbers.cells() {
        last = limit_of_cell(config, &last, cell);
        if last.limit <= cell.number {
            return true;
        }
    }
    false
}

/// The limit of a channel subsystem and set.
#[derive(Clone, Copy, PartialEq, Eq)]
pub(crate) struct SetLimit {
    css: Css,
    set: SetNo,
    pub(crate) limit: u16,
}

/// The limit of the first set of the first channel subsystem.
pub(crate) fn first_limit<A: Allocator>(config: &Config<A>) -> SetLimit
    ensures { result.limit ≡ past.limit_there (lookup_of config.now.records) result.css result.set }
{
    SetLimit {
        css: Css::FIRST,
        set: SetNo::FIRST,
        limit: limit_in(config, Css::FIRST, SetNo::FIRST),
    }
}

/// The limit of a number's channel subsystem and set, looked up where they are others than those of
/// the last one.
pub(crate) fn limit_of_cell<A: Allocator>(
    config: &Config<A>,
    last: &SetLimit,
    cell: &NumberCell,
) -> SetLimit
    requires { last.now.limit ≡ past.limit_there (lookup_of config.now.records) last.now.css last.now.set }
    ensures css { result.css ≡ cell.now.css }
    ensures set { result.set ≡ cell.now.set }
    ensures limit { result.limit ≡ past.limit_there (lookup_of config.now.records) cell.now.css cell.now.set }
{
    let limit = if cell.css == last.css && cell.set == last.set {
        last.limit
    } else {
        limit_in(config, cell.css, cell.set)
    };
    SetLimit {
        css: cell.css,
        set: cell.set,
        limit,
    }
}

/// Whether the number of a device is at or above the limit in some channel subsystem.
#[tactic(auto, using(iocm_types::proofs::Any::any_steps))]
fn is_past_limit<A: Allocator, N: Allocator>(
    config: &Config<A>,
    numbers: &Numbers<N>,
    set: SetNo,
    device: DevNo,
) -> bool
    ensures { result ≡ list_any
        (past.is_device_past (lookup_of config.now.records) numbers.now.numbers set device) numbering.subsystems }
{
    let all = subsystems();
    for css in all.as_slice() {
        if is_past_limit_in(config, numbers, *css, set, device) {
            return true;
        }
    }
    false
}

/// Whether the number of a device is at or above the limit in a channel subsystem.
fn is_past_limit_in<A: Allocator, N: Allocator>(
    config: &Config<A>,
    numbers: &Numbers<N>,
    css: Css,
    set: SetNo,
    device: DevNo,
) -> bool
    ensures { result ≡ past.is_device_past (lookup_of config.now.records) numbers.now.numbers set device css }
{
    match numbers.number_of(Place { css, set, device }) {
        Some(number) => limit_in(config, css, set) <= number,
        None => false,
    }
}

/// Below which number the subchannels of a set stay in a channel subsystem.
pub(crate) fn limit_in<A: Allocator>(config: &Config<A>, css: Css, set: SetNo) -> u16
    ensures { result ≡ past.limit_there (lookup_of config.now.records) css set }
{
    match config.get(&Key::Limit(css, set)) {
        Some(entry) => limit_of(entry, set),
        None => default_limit(set),
    }
}

/// The limit of a record, if it is that of one.
fn limit_of<A: Allocator>(entry: &Record<A>, set: SetNo) -> u16
    ensures { result ≡ model.limit_or_default set (Some entry.now) }
{
    match entry.body() {
        RecordBody::Limit(_, _, limit) => *limit,
        _ => default_limit(set),
    }
}

/// Below which number the subchannels of a set stay where no limit is given.
fn default_limit(set: SetNo) -> u16
    ensures { result ≡ model.default_limit set }
{
    if set.number() == 0 { 65280 } else { 65535 }
}
