//! `iocm`, a dynamic I/O reconfiguration manager for a channel subsystem.
//!
//! `iocm check DECK` reads a configuration deck, checks its rules and says how many records it has,
//! or which rules it breaks; `iocm show DECK` prints the table of its subchannels, `iocm write DECK`
//! the deck in its canonical order and forms. `iocm diff OLD NEW` prints the change deck that leads
//! from one deck to another, `iocm plan OLD NEW` what that does to images and devices, and
//! `iocm vary DECK offline PATH..` the change deck that takes channel paths offline.
//! `iocm apply DECK CHANGE` activates a change deck on the machine of a configuration deck, and
//! prints how many subchannels it altered and the table afterwards, or another report. `iocm run DECK SCRIPT CHANGE..` lets images and operators work on the machine of
//! a configuration deck as a script says, and prints every answer and the table at the end. One file
//! of a command may be `-`, standard input.
//!
//! The exit status is 0 if a command did what it was asked to do, 1 if a text was refused (one line
//! on standard output says why), 2 if the command line is not understood, and 3 if a file cannot be
//! read or the output cannot be written (`fault L5` or `fault L6` on standard error). With
//! `--exit-code` it is 4 if a plan or `diff` tells something. Beside a
//! refusal, standard error says from which file and line it comes; with `--quiet` it doesn't.
//!
//! A command goes from bytes to an answer and to its text: `commands.rt` reads its files
//! (`texts.rt`), calls `begin` and `finish` of `iocm_answer`, and tells what came of them
//! (`telling.rt`). What the words of a command line ask for is in `iocm_command`. Begin with
//! `carry_out` in `commands.rt`.
#![tactic(auto)]

mod commands;
mod failure;
mod telling;
mod texts;

use clap::error::ErrorKind;
use commands::{Call, carry_out};
use failure::{Ended, Failure};
use iocm_command::{Understood, command_of};
use iocm_lines::Form;
use std::process::ExitCode;
use std::rt::{Env, Files};
use std::sync::Wait;
use std::thread::Threads;
use std::{env, io};
use telling::{Talk, USAGE, code_of, end};
use texts::count_inputs;

fn main(rt: HostRuntime) -> ExitCode {
    let words: Vec<String> = match words(&rt) {
        Ok(words) => words,
        Err(error) if error.kind() == io::ErrorKind::OutOfMemory => {
            return end(&rt, Form::Text, Talk::All, Failure::Memory);
        }
        Err(_) => return explain_usage(&rt, "a word of the command line is not UTF-8"),
    };
    match command_of(rt.alloc(), words.as_slice()) {
        Ok(understood) => perform(&rt, &understood),
        Err(error) => explain_line(&rt, form_of(&words), &error),
    }
}

/// The form that words state, which clap has no memory to read.
fn form_of(words: &[String]) -> Form {
    if words.iter().any(|word| word.as_str() == "--json") {
        Form::Json
    } else {
        Form::Text
    }
}

/// The words of the command line, the program's name first.
fn words<R: Env + AllocGlobal>(rt: &R) -> io::Result<Vec<String>> {
    Ok(env::args(rt)?.collect(rt.alloc())?)
}

/// Does a command. Standard input can be only one of its files.
fn perform<R: Files + Input + Print + Eprint + AllocGlobal + Threads + Wait + Sync>(
    rt: &R,
    understood: &Understood<'_>,
) -> ExitCode {
    let talk = if understood.quiet {
        Talk::Quiet
    } else {
        Talk::All
    };
    let form = understood.form;
    let Ok(files) = understood.command.files(rt.alloc()) else {
        return end(rt, form, talk, Failure::Memory);
    };
    if count_inputs(&files) > 1 {
        return explain_usage(rt, "only one file can be read from standard input");
    }
    let call = Call {
        command: &understood.command,
        files: &files,
        form,
        talk,
        exit_code: understood.exit_code,
    };
    match carry_out(rt, &call) {
        Ok(ended) => code_of(rt, ended),
        Err(failure) => end(rt, form, talk, failure),
    }
}

/// Prints what `clap` says of the command line: help on standard output, a mistake on standard
/// error. That memory is missing is printed in this form.
fn explain_line<R: Print + Eprint + AllocGlobal>(
    rt: &R,
    form: Form,
    error: &clap::Error,
) -> ExitCode {
    if error.kind() == ErrorKind::OutOfMemory {
        return end(rt, form, Talk::All, Failure::Memory);
    }
    match error.print(rt) {
        Ok(()) if error.use_stderr() => ExitCode::from(USAGE),
        Ok(()) => ExitCode::SUCCESS,
        Err(error) => code_of(rt, Ended::Unwritten(Some(error.kind()))),
    }
}

/// Says why the command line is not understood.
fn explain_usage<R: Eprint>(rt: &R, why: &str) -> ExitCode {
    match eprintln!(rt; "error: {why}") {
        Ok(()) => ExitCode::from(USAGE),
        Err(error) => code_of(rt, Ended::Unwritten(Some(error.kind()))),
    }
}
