ghost use Rattle.std.specs.Prelude.{◌≡◌, true};
ghost use Rattle.std.specs.Option.{option_copied};
ghost use Rattle.iocm_affected.specs.Alike.{AreSeenAlike, IsSeenAlike, HaveSameLists};

use iocm_record::{DeviceFields, Record, RecordBody};
use iocm_types::{List, Name};
use std::alloc::Allocator;

/// Whether a record was a device's and is one of the same control units and candidates. Then it is
/// reached and seen as before.
pub(crate) fn are_seen_alike<A: Allocator>(
    before: Option<&Record<A>>,
    after: Option<&Record<A>>,
) -> bool
    ensures { result ≡ true → AreSeenAlike (option_copied before.entry) (option_copied after.entry) }
{
    match (before, after) {
        (Some(old), Some(new)) => is_seen_alike(old, new),
        _ => false,
    }
}

/// Whether two records are devices of the same control units and candidates.
pub fn is_seen_alike<A: Allocator>(old: &Record<A>, new: &Record<A>) -> bool
    ensures { result ≡ true → IsSeenAlike old.now new.now }
{
    match (old.body(), new.body()) {
        (RecordBody::Device(old), RecordBody::Device(new)) => have_same_lists(old, new),
        _ => false,
    }
}

/// Whether two devices have the same control units and candidates.
fn have_same_lists<A: Allocator>(old: &DeviceFields<A>, new: &DeviceFields<A>) -> bool
    ensures { result ≡ true → HaveSameLists old.now.lists new.now.lists }
{
    if old.lists.units() != new.lists.units() {
        return false;
    }
    are_same_names(old.lists.candidates(), new.lists.candidates())
}

/// Whether there are the same names, if any are listed.
fn are_same_names<A: Allocator>(old: Option<&List<Name, A>>, new: Option<&List<Name, A>>) -> bool
    ensures { result ≡ true → option_copied old.entry ≡ option_copied new.entry }
{
    match (old, new) {
        (Some(names), Some(others)) => names.as_slice() == others.as_slice(),
        (None, None) => true,
        _ => false,
    }
}
