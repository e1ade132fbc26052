//! What a command says: its answer on standard output, and beside it what there is to say on standard
//! error.

use crate::failure::{Ended, Failure};
use crate::texts::{Text, title_of_text};
use iocm_answer::{Answer, Manner, print};
use iocm_columns::{Card, cards};
use iocm_config::Config;
use iocm_console::{About, Output, Refusal, open_deck};
use iocm_filter::{Asked, Filters, Note, image_names, missing};
use iocm_lines::Form;
use iocm_origin::{Origin, Remark, all_faults, line_of};
use iocm_types::{Fault, Name, Rule};
use std::io::{BufWriter, ErrorKind};
use std::process::ExitCode;
use std::{io, str};

/// The exit status if the command line is not understood.
pub const USAGE: u8 = 2;

/// The exit status after a fault of a device.
const FAULT: u8 = 3;

/// The exit status of `--exit-code` if something is told.
pub const TELLS: u8 = 4;

/// How many edits a change deck may have.
const MOST_EDITS: usize = 4096;

/// Whether standard error is to say something beside what a command prints.
#[derive(Clone, Copy, PartialEq, Eq)]
pub enum Talk {
    /// It is.
    All,
    /// Only why a device fails.
    Quiet,
}

/// Prints what a command gives, or its refusal, in a manner. If memory is missing for the program's own
/// buffer, it is printed without one.
pub fn tell<R: Print + AllocGlobal>(
    rt: &R,
    manner: Manner,
    said: &Result<Answer<'_>, Refusal>,
) -> Ended {
    let Ok(writer) = BufWriter::new(rt.alloc(), io::writer(rt)) else {
        return tell_unbuffered(rt, manner, said);
    };
    let mut output = Output::new(writer);
    match print(manner, said, &mut output) {
        Ok(status) => Ended::Printed(ExitCode::from(status.code())),
        Err(_) => Ended::Unwritten(output.failure()),
    }
}

/// Prints what a command gives without a buffer, which needs no memory.
fn tell_unbuffered<R: Print + AllocGlobal>(
    rt: &R,
    manner: Manner,
    said: &Result<Answer<'_>, Refusal>,
) -> Ended {
    let Ok(writer) = BufWriter::with_capacity(rt.alloc(), 0, io::writer(rt)) else {
        unreachable!()
    };
    let mut output = Output::new(writer);
    match print(manner, said, &mut output) {
        Ok(status) => Ended::Printed(ExitCode::from(status.code())),
        Err(_) => Ended::Unwritten(output.failure()),
    }
}

/// The exit status of a command that ended so. A write that failed is said, but not to a reader of the
/// output that has gone.
pub fn code_of<R: Eprint>(rt: &R, ended: Ended) -> ExitCode {
    match ended {
        Ended::Printed(code) => code,
        Ended::Unwritten(Some(ErrorKind::BrokenPipe)) => ExitCode::from(FAULT),
        Ended::Unwritten(_) => {
            let _ = eprintln!(rt; "fault L6");
            ExitCode::from(FAULT)
        }
    }
}

/// Says why a command has no answer, and gives the exit status.
pub fn end<R: Print + Eprint + AllocGlobal>(
    rt: &R,
    form: Form,
    talk: Talk,
    failure: Failure<'_>,
) -> ExitCode {
    match failure {
        Failure::Memory => {
            let manner = Manner { form, input: None };
            code_of(rt, tell(rt, manner, &Err(Refusal::NO_MEMORY)))
        }
        Failure::Unread(name) => {
            let _ = eprintln!(rt; "fault L5");
            if talk == Talk::All {
                say(rt, Some(name), Origin::Whole, UNREAD, None);
            }
            ExitCode::from(FAULT)
        }
    }
}

/// A text that can't be read.
const UNREAD: Refusal = Refusal {
    number: Rule::L5,
    node: None,
    about: About::Nothing,
};

/// Says of a refusal what it is, and from where in a text it comes, if it comes from there.
pub fn remark<R: Eprint + AllocGlobal>(rt: &R, text: &Text<'_, '_>, why: &Refusal) {
    match text.origin_of(rt.alloc(), *why) {
        Ok(Some(origin)) if why.number != Rule::M1 => {
            let line = shown_line(text.bytes, origin, *why);
            say(rt, Some(text.name), origin, *why, line);
        }
        _ => remark_on_nothing(rt, why),
    }
}

/// Says of a refusal what it is, if it comes from no text.
pub fn remark_on_nothing<R: Eprint>(rt: &R, why: &Refusal) {
    say(rt, None, Origin::Whole, *why, None);
}

/// Says of each further statement of a deck that has a fault from where it comes, and what it is, if
/// the deck is refused with the fault of a line.
pub fn remark_on_others<R: Eprint + AllocGlobal>(rt: &R, deck: &Text<'_, '_>, first: Refusal) {
    if !matches!(first.about, About::Line(_)) {
        return;
    }
    let Ok(faults) = all_faults(rt.alloc(), deck.bytes) else {
        return;
    };
    let Ok(cards) = cards(rt.alloc(), deck.bytes) else {
        return;
    };
    for fault in &faults {
        let why = Refusal::from(*fault);
        if why != first {
            let origin = Origin::Line(fault.line);
            say(
                rt,
                Some(deck.name),
                origin,
                why,
                card_at(&cards, fault.line),
            );
        }
    }
}

/// The line of this number, counted from 1, if there is one.
fn card_at<'a>(cards: &[Card<'a>], line: usize) -> Option<&'a str> {
    let card = cards.get(line.checked_sub(1)?)?;
    str::from_utf8(card.bytes.as_slice()).ok()
}

/// The line that a refusal comes from, if there is one, and it can be shown: it is neither too long nor
/// has it bytes that aren't printable.
fn shown_line(text: &[u8], origin: Origin, why: Refusal) -> Option<&str> {
    match origin {
        Origin::Line(line) if why.number != Rule::L1 && why.number != Rule::L2 => {
            str::from_utf8(line_of(text, line)?).ok()
        }
        _ => None,
    }
}

/// Says of each value of a filter that names what isn't in a deck what it is, and which images there
/// are. That memory is missing for this changes nothing.
pub fn note_missing<R: Eprint + AllocGlobal>(
    rt: &R,
    name: &str,
    filters: &Filters,
    opened: &Config,
) {
    let Ok(found) = missing(rt.alloc(), filters, opened) else {
        return;
    };
    let Ok(images) = image_names(rt.alloc(), opened) else {
        return;
    };
    for asked in &found {
        note(rt, *asked, title_of_text(name), &images);
    }
}

/// Says the same of what isn't in either of two decks.
pub fn note_missing_in_both<R: Eprint + AllocGlobal>(
    rt: &R,
    old: &str,
    new: &str,
    filters: &Filters,
    opened: &Config,
    bytes: &[u8],
) {
    let Ok(found) = missing(rt.alloc(), filters, opened) else {
        return;
    };
    if found.is_empty() {
        return;
    }
    let Ok(after) = open_deck(rt.alloc(), bytes) else {
        return;
    };
    let Ok(missed) = missing(rt.alloc(), filters, &after) else {
        return;
    };
    let (old, new) = (title_of_text(old), title_of_text(new));
    let Ok(decks) = format!(in rt.alloc(); "{old} or {new}") else {
        return;
    };
    let Ok(images) = image_names(rt.alloc(), opened) else {
        return;
    };
    for asked in &found {
        if missed.contains(asked) {
            note(rt, *asked, &decks, &images);
        }
    }
}

/// Says of what is asked for that it isn't there, and which images there are.
fn note<R: Eprint>(rt: &R, asked: Asked, deck: &str, images: &[Name]) {
    let note = Note {
        asked,
        deck,
        images,
    };
    let _ = eprintln!(rt; "{note}");
}

/// Says how many edits a difference has, or that they are too many.
pub fn remark_on_edits<R: Eprint>(rt: &R, count: usize) {
    let _ = match count {
        0 => eprintln!(rt; "no edits: the configurations are equal"),
        1 => eprintln!(rt; "1 edit"),
        _ if count <= MOST_EDITS => eprintln!(rt; "{count} edits"),
        _ => eprintln!(rt;
            "{count} edits: a change deck of more than {MOST_EDITS} is refused (C2)"
        ),
    };
}

/// Says that a word is no refusal's number.
pub fn explain_unknown<R: Eprint>(rt: &R, word: &str) -> Ended {
    match eprintln!(rt; "error: no refusal has this number: {word}; 'iocm explain' lists all") {
        Ok(()) => Ended::Printed(ExitCode::from(USAGE)),
        Err(error) => Ended::Unwritten(Some(error.kind())),
    }
}

/// Says of a refusal that it comes from there. That this can't be written changes nothing.
fn say<R: Eprint>(rt: &R, file: Option<&str>, origin: Origin, why: Refusal, line: Option<&str>) {
    let remark = Remark {
        file: file.map(title_of_text),
        origin,
        why,
        line,
    };
    let _ = eprintln!(rt; "{remark}");
}
