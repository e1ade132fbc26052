ghost use Rattle.std.specs.Prelude.{◌≡◌, false};
ghost use Rattle.clap.specs.Words.{rule_of};
ghost use Rattle.iocm_command.specs.Program as meaning;

use clap::builder::ValueParser;
use clap::{Arg, ArgAction};
use std::alloc::Global;

/// The least heap in bytes that a change tree is read in.
pub(crate) const LEAST_HEAP: u32 = 16;

/// The largest.
pub(crate) const LARGEST_HEAP: u32 = 16_777_216;

/// An argument of a command.
#[derive(Clone, Copy)]
pub(crate) struct Argument<'a> {
    /// Its name, which an option has behind two hyphens.
    pub(crate) name: &'a str,
    /// What it is.
    pub(crate) form: Form,
    /// What help calls its value: nothing, if it isn't an option with one.
    pub(crate) value: &'a str,
    /// What help says of it.
    pub(crate) help: &'a str,
}

/// What an argument is.
#[derive(Clone, Copy)]
pub(crate) enum Form {
    /// A file, which is required.
    File,
    /// A word, which is required.
    Word,
    /// Words, which aren't required, as many as there are.
    Words,
    /// Paths, of which one is required.
    Paths,
    /// The size in bytes of the heap that a change tree is read in.
    Heap,
    /// A flag.
    Flag,
    /// A flag that may be given by this letter too.
    Letter(char),
    /// An option that may be given several times.
    Filter,
}

impl<'a> Argument<'a> {
    /// The argument as `clap` is told of it.
    pub(crate) fn told(&self, alloc: Global) -> Arg<'a>
        ensures rule { rule_of result ≡ meaning.rule_by self.now.name.now self.now.form }
        ensures local { result.global ≡ false }
    {
        let argument = Arg::new(alloc, self.name).help(self.help);
        match self.form {
            Form::File | Form::Word => argument.required(true),
            Form::Words => argument.action(ArgAction::Append),
            Form::Paths => argument
                .value_name(self.value)
                .action(ArgAction::Append)
                .required(true),
            Form::Heap => argument
                .long(self.name)
                .value_name(self.value)
                .value_parser(heap_parser()),
            Form::Flag => argument.long(self.name).action(ArgAction::SetTrue),
            Form::Letter(letter) => argument
                .long(self.name)
                .short(letter)
                .action(ArgAction::SetTrue),
            Form::Filter => argument
                .long(self.name)
                .value_name(self.value)
                .action(ArgAction::Append),
        }
    }
}

/// What reads the size of a heap.
#[tactic(auto, unfolding(crate::specs::Program::heap_parser))]
fn heap_parser() -> ValueParser<'static>
    ensures { result ≡ meaning.heap_parser }
{
    ValueParser::unsigned(u64::from(LEAST_HEAP), u64::from(LARGEST_HEAP))
}
