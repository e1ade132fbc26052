ghost use Rattle.std.specs.Prelude.{◌≡◌, ◌&&◌, true};
ghost use Rattle.std.specs.Option.{option_copied};
ghost use Rattle.iocm_device_rules.specs.SameUnits.{AreOnSameUnits, units_on};
ghost use Rattle.iocm_device_rules.specs.WrongDevices.{is_without_candidates};

use iocm_record::{Record, RecordBody};
use iocm_types::UnitNo;
use std::alloc::Allocator;

/// Whether two records are those of devices on the same units in the same order. Devices of one
/// unit mostly stand side by side.
pub fn are_on_same_units<A: Allocator>(entry: &Record<A>, other: &Record<A>) -> bool
    ensures { result ≡ true → AreOnSameUnits entry.now other.now }
{
    match (units_on(entry), units_on(other)) {
        (Some(units), Some(others)) => units == others,
        _ => false,
    }
}

/// The units of a record, if it is that of a device.
fn units_on<A: Allocator>(entry: &Record<A>) -> Option<&[UnitNo]>
    ensures { option_copied result ≡ units_on entry.now }
{
    match entry.body() {
        RecordBody::Device(fields) => Some(fields.lists.units()),
        _ => None,
    }
}

/// Whether two records are those of devices that list no candidates.
pub fn are_without_candidates<A: Allocator>(entry: &Record<A>, other: &Record<A>) -> bool
    ensures { result ≡ (is_without_candidates entry.now && is_without_candidates other.now) }
{
    is_without_candidates(entry) && is_without_candidates(other)
}

/// Whether a record is that of a device that lists no candidates.
fn is_without_candidates<A: Allocator>(entry: &Record<A>) -> bool
    ensures { result ≡ is_without_candidates entry.now }
{
    match entry.body() {
        RecordBody::Device(fields) => fields.lists.candidates().is_none(),
        _ => false,
    }
}
