ghost use Rattle.std.specs.Prelude.{◌≡◌};
ghost use Rattle.iocm_answer.specs.Answer as meaning;

use crate::altered::Altered;
use crate::census::Census;
use iocm_console::Table;
use iocm_explain::Explained;
use iocm_operation::Answered;
use iocm_plan_text::Plan;
use iocm_rules::Breach;
use iocm_types::Fault;

/// What a command gives, if it isn't refused: all that it takes to print it, so that printing needs
/// no memory.
#[derive(Drop)]
pub enum Answer<'f> {
    /// A deck is accepted; it has so many records.
    Accepted(Census),
    /// The breaches of the rules, of which there is one at least.
    Breaches(Vec<Breach>),
    /// The faults of a deck that can't be read, of which there is one at least.
    Faults(Vec<Fault>),
    /// A table of subchannels.
    Table(Table<'f>),
    /// A deck, or a change deck.
    Text(Vec<u8>),
    /// The change deck of a difference.
    Difference(Difference),
    /// The plan of two configurations.
    Plan(Plan),
    /// How many subchannels a change altered, and the table afterwards.
    Changed(usize, Table<'f>),
    /// How many subchannels a change altered, and those that are asked for, before and afterwards.
    Altered(Altered),
    /// How many subchannels a change altered, and of those that are asked for how many of each image.
    Counted(Altered),
    /// How many subchannels a change altered, and nothing else.
    Tried(usize),
    /// What came of a script.
    Ran(Ran<'f>),
    /// The refusals that are explained.
    Explained(Explained),
}

impl<'f> Answer<'f> {
    /// Whether something differs, of a difference and of a plan.
    pub fn tells(&self) -> bool
        ensures { result ≡ meaning.tells self.now }
    {
        match self {
            Answer::Difference(difference) => difference.edits != 0,
            Answer::Plan(plan) => plan.is_told,
            _ => false,
        }
    }
}

/// A change deck that leads from one deck to another.
#[derive(Drop)]
pub struct Difference {
    /// Its bytes.
    pub text: Vec<u8>,
    /// How many edits it has.
    pub edits: usize,
}

/// What came of a script.
#[derive(Drop)]
pub struct Ran<'f> {
    /// The answer to each line, in the order of the lines.
    pub answers: Vec<Answered>,
    /// How many calls were made.
    pub calls: usize,
    /// The table of the machine that is left.
    pub table: Table<'f>,
}
