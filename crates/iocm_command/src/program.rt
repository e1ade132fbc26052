ghost use Rattle.std.specs.Prelude.{◌≡◌, IfOk, false, fold, map};
ghost use Rattle.clap.specs.Words.{app_of};
ghost use Rattle.iocm_command.specs.Program as meaning;
ghost use Rattle.iocm_command.specs.Program.{has_globals};

use crate::argument::Argument;
use crate::table::{OF_CHANGES, OF_DECKS, OTHERS, Row};
use std::alloc::{AllocError, Global};

/// The version of the program, which `--version` prints.
const VERSION: &str = "0.4.0";

/// The commands of decks alone.
fn of_decks() -> &'static [Row<'static>]
    ensures { map meaning.seen_row result.now ≡ meaning.of_decks }
{
    &OF_DECKS
}

/// The commands of changes.
fn of_changes() -> &'static [Row<'static>]
    ensures { map meaning.seen_row result.now ≡ meaning.of_changes }
{
    &OF_CHANGES
}

/// The other commands.
fn others() -> &'static [Row<'static>]
    ensures { map meaning.seen_row result.now ≡ meaning.others }
{
    &OTHERS
}

/// A command that takes these arguments too.
#[tactic(auto, using(crate::proofs::Rows::row_steps))]
fn with_arguments<'a>(
    alloc: Global,
    command: clap::Command<'a>,
    arguments: &[Argument<'a>],
) -> Result<clap::Command<'a>, AllocError>
    requires { has_globals command ≡ false }
    ensures app { IfOk result (λ c. app_of c ≡ fold meaning.with_argument (app_of command.entry)
        (map meaning.seen_argument arguments.now)) }
    ensures local { IfOk result (λ c. has_globals c ≡ false) }
{
    let mut command = command;
    for argument in arguments {
        command = command.arg(argument.told(alloc))?;
    }
    Ok(command)
}

/// A command as `clap` is told of it.
fn told<'a>(alloc: Global, row: &Row<'a>) -> Result<clap::Command<'a>, AllocError>
    ensures app { IfOk result (λ c. app_of c ≡ meaning.command_app (meaning.seen_row row.now)) }
    ensures local { IfOk result (λ c. has_globals c ≡ false) }
{
    let command = clap::Command::new(alloc, row.name)
        .about(row.about)
        .after_help(row.examples);
    with_arguments(alloc, command, row.arguments)
}

/// A program with these commands too.
#[tactic(auto, using(crate::proofs::Rows::row_steps))]
fn with_commands<'a>(
    alloc: Global,
    program: clap::Command<'a>,
    commands: &[Row<'a>],
) -> Result<clap::Command<'a>, AllocError>
    ensures { IfOk result (λ c. app_of c ≡ fold meaning.with_command (app_of program.entry)
        (map meaning.seen_row commands.now)) }
{
    let mut program = program;
    for row in commands {
        program = program.subcommand(told(alloc, row)?)?;
    }
    Ok(program)
}

/// The command lines that `iocm` understands.
pub(crate) fn iocm<'a>(alloc: Global) -> Result<clap::Command<'a>, AllocError>
    ensures { IfOk result (λ c. app_of c ≡ meaning.iocm_app) }
{
    let program = clap::Command::new(alloc, "iocm")
        .version(VERSION)
        .about("Reads I/O configuration decks of a mainframe channel subsystem")
        .after_help(
            "Exit status: 0 done; 1 refused, for the reason on standard output; 2 command line not understood; \
             3 a file cannot be read or the output cannot be written; 4 something is told, of --exit-code.",
        )
        .subcommand_required(true);
    let program = with_commands(alloc, program, of_decks())?;
    let program = with_commands(alloc, program, of_changes())?;
    with_commands(alloc, program, others())
}
