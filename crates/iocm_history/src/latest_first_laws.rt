ghost use Rattle.iocm_history.specs.LatestFirst.{
  StepsMayBeDecidedAnew,
  LatestIsNeverBlocked,
  OnlyLaterStandingChangesStandOn,
};

/// In a legal history in which each accepted undo is of the latest standing change, the state is
/// that of its entries decided anew: each step that counts as an order, a device begin or a device
/// end in the state that the older ones leave, and each change as its effect.
pub fn steps_may_be_decided_anew()
    ensures { StepsMayBeDecidedAnew }
{}

/// In such a history nothing stands on the latest standing change: its undo is never refused by J2.
/// It is accepted, or has to wait for a staged change, for a subchannel that is not quiet, or for
/// memory.
///
/// Promise: if each undo was of the latest change in effect, its undo is never refused by J2.
pub fn latest_is_never_blocked()
    ensures { LatestIsNeverBlocked }
{}

/// In such a history each change that stands on a standing change stands too, and is later. So J2
/// names only later standing changes: no change that was undone is in the way, an earlier one
/// neither.
pub fn only_later_standing_changes_stand_on()
    ensures { OnlyLaterStandingChangesStandOn }
{}
