ghost use Rattle.iocm_tree_reader.specs.Examples as example;

/// Change decks that were worked by hand are read so. It does nothing when it runs.
pub fn worked_decks_are_read()
    ensures empty { example.EmptyIsARow }
    ensures one { example.OneIsTheTree }
    ensures nested { example.NodesAreNested }
    ensures missing { example.EndIsMissing }
    ensures unmatched { example.EndIsUnmatched }
    ensures verb { example.VerbIsMissing }
{}
