ghost use Rattle.std.specs.Prelude.{◌≡◌, map};
ghost use Rattle.std.specs.Map.{lookup};
ghost use Rattle.std.specs.Str.{bytes_eq};
ghost use Rattle.iocm_script.specs.Verbs as meaning;
ghost use Rattle.iocm_script.specs.Verbs.{seen_row};

/// What a command does, by its word.
#[derive(Clone, Copy, PartialEq, Eq)]
pub(crate) enum Verb {
    Start,
    Halt,
    Clear,
    Cancel,
    Test,
    Store,
    Modify,
    Active,
    End,
    Activate,
    Begin,
    Advance,
    Commit,
    Abort,
    Undo,
    Redo,
    Show,
}

/// The word of a command, and its verb.
#[derive(Clone, Copy)]
pub(crate) struct Row<'a> {
    pub(crate) word: &'a [u8],
    pub(crate) verb: Verb,
}

const VERBS: [Row<'static>; 17] = [
    Row {
        word: b"start",
        verb: Verb::Start,
    },
    Row {
        word: b"halt",
        verb: Verb::Halt,
    },
    Row {
        word: b"clear",
        verb: Verb::Clear,
    },
    Row {
        word: b"cancel",
        verb: Verb::Cancel,
    },
    Row {
        word: b"test",
        verb: Verb::Test,
    },
    Row {
        word: b"store",
        verb: Verb::Store,
    },
    Row {
        word: b"modify",
        verb: Verb::Modify,
    },
    Row {
        word: b"active",
        verb: Verb::Active,
    },
    Row {
        word: b"end",
        verb: Verb::End,
    },
    Row {
        word: b"activate",
        verb: Verb::Activate,
    },
    Row {
        word: b"begin",
        verb: Verb::Begin,
    },
    Row {
        word: b"advance",
        verb: Verb::Advance,
    },
    Row {
        word: b"commit",
        verb: Verb::Commit,
    },
    Row {
        word: b"abort",
        verb: Verb::Abort,
    },
    Row {
        word: b"undo",
        verb: Verb::Undo,
    },
    Row {
        word: b"redo",
        verb: Verb::Redo,
    },
    Row {
        word: b"show",
        verb: Verb::Show,
    },
];

/// The commands: those of images, then those of operators.
fn verbs() -> &'static [Row<'static>]
    ensures { map seen_row result.now ≡ meaning.verbs }
{
    &VERBS
}

/// The verb of a word in a table, if the table has it.
#[tactic(auto, using(crate::proofs::Rows::verb_steps))]
fn verb_in(rows: &[Row], word: &[u8]) -> Option<Verb>
    ensures { result ≡ lookup (bytes_eq word.now) (map seen_row rows.now) }
{
    for row in rows {
        if word == row.word {
            return Some(row.verb);
        }
    }
    None
}

/// The verb of a word, if it is the word of a command.
pub(crate) fn verb_named(word: &[u8]) -> Option<Verb>
    ensures { result ≡ meaning.verb_named word.now }
{
    verb_in(verbs(), word)
}
