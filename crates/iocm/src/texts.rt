//! The texts of a command: files, and standard input among them. All are opened before one is read, and
//! each is read whole and once.

use crate::failure::Failure;
use iocm_columns::Device;
use iocm_console::Refusal;
use iocm_lines::Input as InputText;
use iocm_origin::{Origin, origin_in_change, origin_in_deck, origin_in_script};
use iocm_types::{Fault, Rule};
use std::alloc::{AllocError, Global};
use std::collections::VecDeque;
use std::fs;
use std::io::Read;
use std::rt::Files;

/// How often a text is read at most.
const MOST_READS: u64 = 1_048_576;

/// What standard input is called.
const INPUT: &str = "standard input";

/// What a text is to a command.
#[derive(Clone, Copy)]
pub enum Role {
    /// A configuration deck.
    Deck,
    /// The first of two decks that are compared.
    Old,
    /// The second of them.
    New,
    /// A change deck.
    Change,
    /// The change deck of this number, counted from 1, on a command line with a script.
    ChangeOf(u64),
    /// A script, on a command line with so many change decks.
    Script(u64),
}

impl Role {
    /// The text by its name in lines of JSON.
    pub fn input(self) -> InputText {
        match self {
            Role::Deck => InputText::Deck,
            Role::Old => InputText::Old,
            Role::New => InputText::New,
            Role::Change => InputText::Change,
            Role::ChangeOf(number) => InputText::ChangeOf(number),
            Role::Script(_) => InputText::Script,
        }
    }
}

/// A text that was read.
#[derive(Clone, Copy)]
pub struct Text<'n, 'b> {
    /// Its name on the command line.
    pub name: &'n str,
    /// What it is to the command.
    pub role: Role,
    /// Its bytes.
    pub bytes: &'b [u8],
}

impl<'n, 'b> Text<'n, 'b> {
    /// A text of this name, which is this to the command.
    pub fn new(name: &'n str, role: Role, bytes: &'b [u8]) -> Self {
        Text { name, role, bytes }
    }

    /// Where in the text a refusal comes from, if it comes from there.
    pub fn origin_of(&self, alloc: Global, why: Refusal) -> Result<Option<Origin>, AllocError> {
        match self.role {
            Role::Deck | Role::Old | Role::New => origin_in_deck(alloc, self.bytes, why),
            Role::Change | Role::ChangeOf(_) => origin_in_change(alloc, self.bytes, why),
            Role::Script(changes) => origin_in_script(alloc, self.bytes, changes, why),
        }
    }
}

/// Whether a file's name is the word for standard input.
pub fn is_input(name: &str) -> bool {
    name == "-"
}

/// How many of these files are standard input.
pub fn count_inputs(files: &[&str]) -> usize {
    files.iter().filter(|name| is_input(**name)).count()
}

/// What a text is called.
pub fn title_of_text(name: &str) -> &str {
    if is_input(name) { INPUT } else { name }
}

/// A text that is to be read.
#[derive(Drop)]
pub enum Source<F> {
    /// Standard input.
    Input,
    /// A file that is open.
    File(F),
}

/// Opens the file of this name. Standard input is open.
///
/// `Failure::Unread` (L5): the file can't be opened.
pub fn open_text<'a, R: Files>(rt: &R, name: &'a str) -> Result<Source<R::File>, Failure<'a>> {
    if is_input(name) {
        return Ok(Source::Input);
    }
    match fs::open(rt, name) {
        Ok(file) => Ok(Source::File(file)),
        Err(_) => Err(Failure::Unread(name)),
    }
}

/// All bytes of a text of this name.
///
/// `Failure::Unread` (L5): it can't be read to its end; `Failure::Memory` (M1): memory is missing for
/// it.
pub fn read_text<'a, R: Files + Input + AllocGlobal>(
    rt: &R,
    name: &'a str,
    source: Source<R::File>,
) -> Result<Vec<u8>, Failure<'a>> {
    match source {
        Source::Input => read_to_end(rt.alloc(), name, rt.reader()),
        Source::File(file) => read_to_end(rt.alloc(), name, file),
    }
}

/// Opens the files of these names, in their order.
pub fn open_texts<'a, R: Files + AllocGlobal>(
    rt: &R,
    names: &[&'a str],
) -> Result<VecDeque<Source<R::File>>, Failure<'a>> {
    let mut sources = VecDeque::new(rt.alloc());
    for name in names {
        let source = open_text(rt, *name)?;
        if sources.push_back(source).is_err() {
            return Err(Failure::Memory);
        }
    }
    Ok(sources)
}

/// The bytes of the texts of these names, in their order.
pub fn read_texts<'a, R: Files + Input + AllocGlobal>(
    rt: &R,
    names: &[&'a str],
    mut sources: VecDeque<Source<R::File>>,
) -> Result<Vec<Vec<u8>>, Failure<'a>> {
    let mut texts = Vec::new(rt.alloc());
    for name in names {
        let Some(source) = sources.pop_front() else {
            return Ok(texts);
        };
        if texts.push(read_text(rt, *name, source)?).is_err() {
            return Err(Failure::Memory);
        }
    }
    Ok(texts)
}

/// All bytes that a reader gives, which is called so.
fn read_to_end<'a, R: Read + Drop>(
    alloc: Global,
    name: &'a str,
    reader: R,
) -> Result<Vec<u8>, Failure<'a>> {
    let mut device = Device::new(reader);
    match device.read_to_end(alloc, MOST_READS) {
        Ok(bytes) => Ok(bytes),
        Err(fault) => Err(failure_of(name, fault)),
    }
}

/// Why a text isn't there.
fn failure_of<'a>(name: &'a str, fault: Fault) -> Failure<'a> {
    match fault.rule {
        Rule::M1 => Failure::Memory,
        _ => Failure::Unread(name),
    }
}
