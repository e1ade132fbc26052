ghost use Rattle.iocm_headline.specs.Headline.{AnUndoInALegalHistory};

/// At each place of a legal history where an undo was accepted, it left what the run without the
/// change leaves. The trace of a machine is such a history, however many threads made its calls.
///
/// Promise: the same holds of each undo in a history, however many threads made its calls.
pub fn an_undo_in_a_legal_history()
    ensures { AnUndoInALegalHistory }
{}
