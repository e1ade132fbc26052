ghost use Rattle.iocm_history.specs.UndoLaws.{
  UndoLeavesTheRunWithout,
  UndoPutsTheCellsBack,
  UndoDoesWhatTheInversesDo,
  UndoDoesWhatTheInverseTreeDoes,
  StandingChangesAreThere,
  StandingChangesFit,
  UndoIsRefusedOnlyFor,
};

/// The undo of a change leaves the run without it: what was before the change, and what came since,
/// without the steps on the subchannels that it altered.
pub fn undo_leaves_the_run_without()
    ensures { UndoLeavesTheRunWithout }
{}

/// Wherever an undo is accepted, also under later changes that stand, it puts the cells that its
/// change wrote back as they were before the change, and leaves all others.
///
/// Promise: an undo puts back exactly what its change wrote, and leaves all else.
pub fn undo_puts_the_cells_back()
    ensures { UndoPutsTheCellsBack }
{}

/// An accepted undo leaves what the inverses of the edits of its change leave that are performed in
/// the state now, and each of them is accepted there.
pub fn undo_does_what_the_inverses_do()
    ensures { UndoDoesWhatTheInversesDo }
{}

/// The inverse tree of the change is accepted in the state now, and leaves the state that the undo
/// leaves.
pub fn undo_does_what_the_inverse_tree_does()
    ensures { UndoDoesWhatTheInverseTreeDoes }
{}

/// A change that stands is there, with the edits that it performed.
pub fn standing_changes_are_there()
    ensures { StandingChangesAreThere }
{}

/// A standing change on which nothing stands fits the state now: where one does not fit, there is a
/// change to name.
pub fn standing_changes_fit()
    ensures { StandingChangesFit }
{}

/// An undo is refused only while a change is staged, where no such change stands, where a change
/// stands on it, which the refusal names, where a subchannel that it altered is not quiet, or for
/// lack of memory.
///
/// Promise: an undo is refused for five causes alone.
pub fn undo_is_refused_only_for()
    ensures { UndoIsRefusedOnlyFor }
{}
