//! The command line of `iocm`: what its words ask for.
//!
//! `command_of` reads the words by `clap`. It gives the `Command` that they state, the form in which it
//! is printed, and whether standard error is to be quiet. Help, the version and every mistake in the words are errors of
//! `clap`.
//!
//! `table.rt` has the table of the commands: what each takes, and what it asks for. `program.rt` tells
//! `clap` of it, `matches.rt` reads what `clap` found in the words, and `changes.rt` what it found of a
//! change. `argument.rt` has the kinds of arguments, and `report.rt` what is printed of a change.
//! `specs/Program.antt` has the table without its help, and `specs/CommandLine.antt` what words mean. `laws.rt` states what words mean that name a command and its files plainly.
//!
//! Begin with `table.rt` and `command.rt`. What names no source is our own.
#![tactic(auto)]

mod argument;
mod changes;
mod command;
mod laws;
mod matches;
mod program;
mod report;
mod table;

pub use command::{Understood, command_of};
pub use laws::plain_words_are_understood;
pub use report::{PlanScope, Report};
pub use table::{Before, Breaches, Command, Listed, Varied};
