ghost use Rattle.std.specs.Prelude.{◌∷◌, [], is_some, map};
ghost use Rattle.clap.specs.Words.{HasKind};
ghost use Rattle.iocm_command.specs.CommandLine.{commanded, others, Answers};

use crate::Command;
use crate::matches::{MisreadWord, misread_in, understood_in};
use crate::program::iocm;
use clap::Error;
use clap::error::ErrorKind;
use iocm_lines::Form;
use iocm_statements::Unread;
use std::alloc::{AllocError, Global};
use std::convert::AsStr;

/// A command line that is understood.
#[derive(Drop)]
pub struct Understood<'a> {
    /// What it asks for.
    pub command: Command<'a>,
    /// The form in which it is printed.
    pub form: Form,
    /// Whether standard error isn't to say from where a refusal comes.
    pub quiet: bool,
    /// Whether the exit status is to say that something is told.
    pub exit_code: bool,
}

/// What is said if several reports of a change are asked for, or part of a plan that isn't.
const TWO_REPORTS: &str =
    "only one of '--undo', '--altered', '--count', '--deck', '--test' and '--plan' can be \
    used, '--plan' without '--json', and '--brief', '--exit-code' and '--lost' with '--plan' alone";

/// The command of the words of a command line, of which the first is the program's name.
///
/// Help, the version and every mistake in the words are `clap`'s errors, with its kinds. Words in
/// which `clap` finds no mistake are understood, unless a filter has a value of another form, a
/// `ValueValidation`, or they ask for two reports of a change, an `ArgumentConflict`. Want of memory is
/// an error of the kind `OutOfMemory`, which may come in place of each of these. What words mean
/// that name a command and its files plainly is in `laws.rt`.
///
/// Promise: the command that is done is the one that the words state.
pub fn command_of<'a, S: AsStr>(alloc: Global, words: &'a [S]) -> Result<Understood<'a>, Error>
    ensures { Answers result (commanded (map S.text words.entry.now)) }
{
    let mut iocm = iocm(alloc)?;
    let matches = iocm.try_get_matches_from_mut(words)?;
    match understood_in(alloc, &matches) {
        Ok(understood) => Ok(understood),
        Err(Unread::Memory) => Err(Error::from(AllocError)),
        Err(Unread::Malformed) => Err(refusal(alloc, &mut iocm, misread_in(&matches))),
    }
}

/// The error of words in which `clap` finds no mistake, and which mean nothing.
fn refusal(alloc: Global, iocm: &mut clap::Command<'_>, misread: Option<MisreadWord<'_>>) -> Error
    ensures { HasKind (others (is_some misread.entry)) result }
{
    let Some(misread) = misread else {
        return said(iocm, ErrorKind::ArgumentConflict, TWO_REPORTS);
    };
    match misread.to_string(alloc) {
        Ok(text) => said(iocm, ErrorKind::ValueValidation, text.as_str()),
        Err(error) => Error::from(error),
    }
}

/// The error of this kind that says this.
fn said(iocm: &mut clap::Command<'_>, kind: ErrorKind, text: &str) -> Error
    ensures { HasKind (kind ∷ []) result }
{
    match iocm.error(kind, text) {
        Ok(error) => error,
        Err(error) => Error::from(error),
    }
}
