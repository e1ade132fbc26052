ghost use Rattle.std.specs.Prelude.{◌≡◌, ◌+◌, nat_lt};
ghost use Rattle.std.specs.List.{list_any};
ghost use Rattle.iocm_types.specs.declared.unit_range.UnitRange as range;
ghost use Rattle.iocm_model.specs.Rules.EachRule as model;

use iocm_config::Config;
use iocm_lookup::{RecordKind, Wanted};
use iocm_record::{Record, RecordBody};
use iocm_types::UnitRange;
use std::alloc::Allocator;

/// V7: a range of unit addresses passes FF, or two ranges of a unit overlap. Own; unit addresses
/// have eight bits (IOCP User's Guide, UNITADD keyword).
#[derive(Drop)]
pub struct WrongRanges;

impl<A: Allocator> Wanted<A> for WrongRanges {
    ghost use Rattle.std.specs.Prelude.{refl};
    ghost use Rattle.iocm_model.specs.Rules.EachRule.{breaks_v7};
    ghost use Rattle.iocm_lookup.specs.OfKind.{only_units};

    ghost wants = { λ s c r. breaks_v7 c r };

    ghost fits = { λ s c. Unit {0} };

    ghost place = { 5 };

    ghost of_kind = { λ s c. only_units (breaks_v7 c)
        (λ _. refl) (λ _. refl) (λ _. refl) (λ _. refl) (λ _. refl) (λ _. refl) (λ _. refl) };

    fn kind(&self) -> RecordKind {
        RecordKind::Unit
    }

    fn is_wanted(&self, _config: &Config<A>, entry: &Record<A>) -> bool {
        match entry.body() {
            RecordBody::Unit(fields) => {
                let ranges = fields.ranges.as_slice();
                is_past_ff(ranges) || has_overlap(ranges)
            }
            _ => false,
        }
    }
}

/// Behind the last address of a range.
pub fn end_of(range: UnitRange) -> usize
    ensures { result ≡ range.start + range.count }
{
    usize::from(range.start) + usize::from(range.count)
}

/// Whether one of these ranges passes FF.
#[tactic(auto, using(iocm_types::proofs::Any::any_steps))]
fn is_past_ff(ranges: &[UnitRange]) -> bool
    ensures { result ≡ list_any (λ (r : range.UnitRange). nat_lt 256 (r.start + r.count)) ranges.now }
{
    for range in ranges {
        if 256 < end_of(*range) {
            return true;
        }
    }
    false
}

/// Whether two of these ranges overlap.
#[tactic(auto, using(crate::proofs::Overlaps::overlap_steps))]
fn has_overlap(ranges: &[UnitRange]) -> bool
    ensures { result ≡ model.has_overlap ranges.now }
{
    for i in 0..ranges.len() {
        if overlaps_any(ranges[i], &ranges[i + 1..]) {
            return true;
        }
    }
    false
}

/// Whether a range overlaps one of these.
#[tactic(auto, using(iocm_types::proofs::Any::any_steps))]
pub fn overlaps_any(range: UnitRange, others: &[UnitRange]) -> bool
    ensures { result ≡ list_any (model.overlap range) others.now }
{
    for other in others {
        if overlap(range, *other) {
            return true;
        }
    }
    false
}

/// Whether two ranges have an address in common.
fn overlap(range: UnitRange, other: UnitRange) -> bool
    ensures { result ≡ model.overlap range other }
{
    usize::from(range.start) < end_of(other) && usize::from(other.start) < end_of(range)
}

/// Whether one of these ranges has an address.
#[tactic(auto, using(iocm_types::proofs::Any::any_steps))]
pub fn is_address_held(address: u8, ranges: &[UnitRange]) -> bool
    ensures { result ≡ list_any (model.holds address) ranges.now }
{
    for range in ranges {
        if range.start <= address && usize::from(address) < end_of(*range) {
            return true;
        }
    }
    false
}
