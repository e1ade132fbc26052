ghost use Rattle.iocm_history.specs.RedoLaws.{
  RedoTakesUndoBack,
  RedoFindsWhatTheUndoLeft,
  RedoPutsTheCellsForward,
};

/// The redo of a change, with no undo or redo of it since its undo, goes back to what was before
/// the undo, and plays what came between them without the steps on the subchannels that the change
/// altered.
///
/// Promise: the first redo after an undo goes back to before it, without steps on its subchannels.
pub fn redo_takes_undo_back()
    ensures { RedoTakesUndoBack }
{}

/// Before such a redo the configuration and the numbers are those that the undo left.
pub fn redo_finds_what_the_undo_left()
    ensures { RedoFindsWhatTheUndoLeft }
{}

/// Such a redo gives the cells that the change wrote what they had before the undo, and leaves all
/// others.
pub fn redo_puts_the_cells_forward()
    ensures { RedoPutsTheCellsForward }
{}
