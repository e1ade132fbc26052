ghost use Rattle.iocm_command.specs.Plain.{AppliesAreMeant, DecksAreMeant, RunsAreMeant};

/// Words that name a command and its files plainly, with at most the size of a heap and `--undo`, are
/// understood as they stand.
///
/// Promise: words that plainly name a command are no mistake, and mean just that command.
pub fn plain_words_are_understood()
    ensures decks { DecksAreMeant }
    ensures applies { AppliesAreMeant }
    ensures runs { RunsAreMeant }
{}
