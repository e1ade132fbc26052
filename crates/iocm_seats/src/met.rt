ghost use Rattle.std.specs.Prelude.{◌≡◌, List, Some, map, IfOk};
ghost use Rattle.std.specs.Map.{keys_of};
ghost use Rattle.iocm_model.specs.Change.Refusal as refusal;
ghost use Rattle.iocm_model.specs.Operation.State.{Lives};
ghost use Rattle.iocm_seats.specs.declared.view_change.ViewChange as changed;
ghost use Rattle.iocm_seats.specs.Settling.{lives_met, first_busy, subchannels_left};

use crate::ViewChange;
use iocm_live::fresh;
use iocm_types::{Live, Phase, SubId};
use std::alloc::{AllocError, Allocator};

/// The first of the subchannels of some changes whose live record isn't quiet, if there is one, by
/// the live records that they meet.
pub fn first_not_quiet(met: &[(SubId, Live)]) -> Option<SubId>
    ensures { (lives : Lives) (changes : List changed.ViewChange) → met.now ≡ lives_met lives changes
        → result ≡ refusal.first_not_quiet lives (map (λ ch. ch.subchannel) changes) }
{
    first_busy(met)
}

/// The subchannel of the first of these live records that isn't quiet, if there is one.
fn first_busy(met: &[(SubId, Live)]) -> Option<SubId>
    ensures { result ≡ first_busy met.now }
{
    for row in met {
        if is_busy(&row.1) {
            return Some(row.0);
        }
    }
    None
}

/// Whether a live record isn't quiet.
fn is_busy(live: &Live) -> bool
    ensures { result ≡ refusal.is_not_quiet (Some live.now) }
{
    !matches!(live.phase, Phase::Idle)
}

/// A row for each subchannel of these changes at which something is seen afterwards, with any live
/// record.
///
/// `AllocError` (M1): memory ran out.
pub fn list_left<B: Allocator>(
    alloc: B,
    changes: &[ViewChange],
) -> Result<Vec<(SubId, Live), B>, AllocError>
    ensures { IfOk result (λ listed. keys_of listed.items ≡ subchannels_left changes.now) }
{
    // These rows stay with the change, so no room is taken for those that go.
    let count = changes
        .iter()
        .filter(|change| change.after.is_some())
        .count();
    let mut listed = Vec::with_capacity(alloc, count)?;
    for change in changes {
        if let Some(view) = &change.after {
            listed.reserve(1)?;
            listed.push_reserved((change.subchannel, fresh(view.pim)));
        }
    }
    Ok(listed)
}
