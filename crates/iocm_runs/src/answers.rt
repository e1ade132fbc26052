ghost use Rattle.iocm_runs.specs.RedoAnswers.{RedoIsAnsweredInOrder};
ghost use Rattle.iocm_runs.specs.UndoAnswers.{UndoIsAnsweredInOrder};

/// An undo is answered by the first of these that applies: O1, J1, J2, B1, that it is undone. M1
/// may stand in place of any.
///
/// Promise: an undo is answered by the first of O1, J1, J2 and B1 that applies, else it is done.
pub fn undo_is_answered_in_order()
    ensures { UndoIsAnsweredInOrder }
{}

/// A redo is answered by the first of these that applies: O1, J1, J3, B1, that it is redone. M1 may
/// stand in place of any.
///
/// Promise: a redo is answered by the first of O1, J1, J3 and B1 that applies, else it is done.
pub fn redo_is_answered_in_order()
    ensures { RedoIsAnsweredInOrder }
{}
