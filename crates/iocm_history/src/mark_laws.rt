ghost use Rattle.iocm_history.specs.MarkLaws.{
  RestoringUndoesStriking,
  StandingChangesMarkNothing,
  ChangesCountWhileTheyStand,
  UndosStrikeTheirOwn,
};

/// What an undo newly struck, taken back, is as it was before the undo, where nothing was marked
/// with that undo before.
pub fn restoring_undoes_striking()
    ensures { RestoringUndoesStriking }
{}

/// In a legal history no entry is struck by the undo of a change that stands, or that isn't there
/// yet.
pub fn standing_changes_mark_nothing()
    ensures { StandingChangesMarkNothing }
{}

/// Exactly the changes that stand count.
pub fn changes_count_while_they_stand()
    ensures { ChangesCountWhileTheyStand }
{}

/// An entry that is marked as struck by the undo of a change is that change, or a step on a
/// subchannel that it altered.
pub fn undos_strike_their_own()
    ensures { UndosStrikeTheirOwn }
{}
