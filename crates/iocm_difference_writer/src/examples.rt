ghost use Rattle.iocm_difference_writer.specs.Examples.{EachLineStarred, GoTogether, RunsOfThree};
ghost use Rattle.iocm_difference_writer.specs.Examples.{TextOfRuns, TextWithOld};

/// Which edits are written together, and what is printed of them.
pub fn texts_are_as_worked()
    ensures together { GoTogether }
    ensures runs { RunsOfThree }
    ensures text { TextOfRuns }
    ensures old { TextWithOld }
    ensures starred { EachLineStarred }
{}
