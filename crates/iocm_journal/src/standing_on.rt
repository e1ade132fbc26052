ghost use Rattle.std.specs.Prelude.{◌≡◌, ◌<◌, ◌+◌, length, MatchOption, not, ◌&&◌, nat_le, List, is_some, false};
ghost use Rattle.std.specs.List.{list_any};
ghost use Rattle.iocm_activate.specs.declared.effect.Effect.{Effect};
ghost use Rattle.iocm_journal.specs.declared.kept.Kept.{Kept};
ghost use Rattle.iocm_journal.specs.Noted.{AreNoted, stands_later};
ghost use Rattle.iocm_journal.specs.Standing.{is_on, last_passing};

use crate::kept::Kept;
use crate::undos::{Undo, undone_since};
use iocm_activate::Effects;

/// The place of the greatest change that stands on the one at a place, if one does. Places count
/// from 0; `fits` tells whether the change at the place fits the machine now.
pub fn greatest_on(kept: &[Kept], changes: &Effects, place: usize, fits: bool) -> Option<usize>
    requires within { place < length kept.now }
    requires changes { length changes.now.items ≡ length kept.now }
    ensures last { result ≡ last_passing (is_on kept.now changes.now.items place fits) (length kept.now) }
    ensures within { MatchOption result (Unit {0}) (λ at. at < length kept.now) }
{
    let mut left = kept.len();
    // On a change that fits, only later ones stand.
    let least = if fits { place + 1 } else { 0 };
    while left > least {
        left -= 1;
        if stands_on(kept, changes, place, fits, left) {
            return Some(left);
        }
    }
    None
}

/// Whether the change at a place `other` stands on the one at a place.
fn stands_on(kept: &[Kept], changes: &Effects, place: usize, fits: bool, other: usize) -> bool
    requires within { place < length kept.now }
    requires other { other < length kept.now }
    requires changes { length changes.now.items ≡ length kept.now }
    ensures { result ≡ is_on kept.now changes.now.items place fits other }
{
    if fits {
        // The signatures mostly tell, and then what is kept of the other isn't read.
        return place < other && changes.share_a_cell(place, other) && kept[other].stands;
    }
    if place < other {
        return kept[other].stands;
    }
    other < place && is_undone_since(&kept[other], place)
}

/// Whether a change doesn't stand, and was undone since the change at a place was accepted.
fn is_undone_since(kept: &Kept, place: usize) -> bool
    ensures { result ≡ (not kept.now.stands && nat_le (place + 1) kept.now.undone_after) }
{
    !kept.stands && kept.undone_after > place as u64
}

/// Whether a change stands on the one at a place, if that one doesn't fit: a later one stands, or an
/// earlier one was undone since and doesn't stand. The undos are those noted beside the changes. The
/// time is that of the changes accepted and the undos made since the one at the place.
pub fn is_stood_on_if_unfit(kept: &[Kept], undos: &[Undo], place: usize) -> bool
    requires within { place < length kept.now }
    requires noted { AreNoted kept.now undos.now }
    ensures { (fs : List Effect) → result ≡ is_some (last_passing (is_on kept.now fs place false) (length kept.now)) }
{
    stands_later(kept, place) || undone_since(kept, undos, place)
}

/// Whether a change after the one at a place stands.
fn stands_later(kept: &[Kept], place: usize) -> bool
    requires { place < length kept.now }
    ensures { result ≡ stands_later kept.now place }
{
    some_stand(&kept[place + 1..])
}

/// Whether one of some changes stands.
fn some_stand(kept: &[Kept]) -> bool
    ensures { result ≡ list_any (λ (k : Kept). k.stands) kept.now }
{
    kept.iter().any(|one| one.stands)
}
