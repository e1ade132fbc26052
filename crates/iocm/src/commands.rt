//! Each command on its files. All are opened in the order of the command line. Then the deck is read, and
//! the others if the deck opens, so that a deck that is refused comes before a text that can't be
//! read. What comes of them is told.
ghost use Rattle.iocm_answer.specs.Commands.{HasDeck};

use crate::failure::{Ended, Failure};
use crate::telling::{
    TELLS, Talk, explain_unknown, note_missing, note_missing_in_both, remark, remark_on_edits,
    remark_on_nothing, remark_on_others, tell,
};
use crate::texts::{Role, Text, open_text, open_texts, read_text, read_texts, title_of_text};
use iocm_answer::{Answer, Manner, begin, finish};
use iocm_command::{Breaches, Command};
use iocm_console::Refusal;
use iocm_explain::{Unexplained, explain};
use iocm_lines::Form;
use iocm_types::Rule;
use std::process::ExitCode;
use std::rt::Files;
use std::sync::Wait;
use std::thread::Threads;

/// A command that is called.
#[derive(Clone, Copy)]
pub struct Call<'c, 'a> {
    /// What it asks for.
    pub command: &'c Command<'a>,
    /// The names of its files, that of the deck first.
    pub files: &'c [&'a str],
    /// The form in which it is printed.
    pub form: Form,
    /// What standard error is to say.
    pub talk: Talk,
    /// Whether the exit status is to say that something is told.
    pub exit_code: bool,
}

/// The texts of a call: that of the deck, and the bytes of those after it that were read.
#[derive(Clone, Copy)]
struct Texts<'t> {
    deck: Text<'t, 't>,
    others: &'t [Vec<u8>],
}

/// Does a command on its files.
pub fn carry_out<'a, R: Files + Input + Print + Eprint + AllocGlobal + Threads + Wait + Sync>(
    rt: &R,
    call: &Call<'_, 'a>,
) -> Result<Ended, Failure<'a>> {
    match call.command {
        Command::Explain { rules } => explain_rules(rt, rules),
        _ => answer_files(rt, call),
    }
}

/// `explain RULE..`: what refusals mean, or a list of all.
fn explain_rules<'a, R: Print + Eprint + AllocGlobal>(
    rt: &R,
    rules: &[&'a str],
) -> Result<Ended, Failure<'a>> {
    match explain(rt.alloc(), rules) {
        Ok(explained) => Ok(tell(rt, Manner::TEXT, &Ok(Answer::Explained(explained)))),
        Err(Unexplained::Unknown(word)) => Ok(explain_unknown(rt, word)),
        Err(Unexplained::Memory) => Err(Failure::Memory),
    }
}

/// Does a command that has a deck.
fn answer_files<'a, R: Files + Input + Print + Eprint + AllocGlobal + Threads + Wait + Sync>(
    rt: &R,
    call: &Call<'_, 'a>,
) -> Result<Ended, Failure<'a>>
    requires { HasDeck call.now.command.now }
{
    // A command that has a deck has a file.
    let Some((name, names)) = call.files.split_first() else {
        return Err(Failure::Unread(""));
    };
    let file = open_text(rt, *name)?;
    let files = open_texts(rt, names)?;
    let bytes = read_text(rt, *name, file)?;
    let deck = Text::new(*name, role_of(call.command, 0), &bytes);
    let begun = match begin(rt.alloc(), call.command, &bytes) {
        Ok(begun) => begun,
        Err(why) => return Ok(conclude(rt, call, &Texts { deck, others: &[] }, &Err(why))),
    };
    let others = read_texts(rt, names, files)?;
    if call.talk == Talk::All {
        if let (Some(filters), Some(config)) = (call.command.filters(), begun.config()) {
            match (names.first(), others.first()) {
                (Some(new), Some(bytes)) => {
                    note_missing_in_both(rt, *name, *new, filters, config, bytes);
                }
                _ => note_missing(rt, *name, filters, config),
            }
        }
    }
    let said = finish(rt, rt.alloc(), call.form, call.command, begun, &others);
    let others = others.as_slice();
    Ok(conclude(rt, call, &Texts { deck, others }, &said))
}

/// Tells what a command gives, and beside it what there is to say.
fn conclude<R: Print + Eprint + AllocGlobal>(
    rt: &R,
    call: &Call<'_, '_>,
    texts: &Texts<'_>,
    said: &Result<Answer<'_>, Refusal>,
) -> Ended {
    let from = match said {
        Ok(_) => Some(0),
        Err(why) => source_of(rt, call, texts.others, why),
    };
    let input = match from {
        Some(place) => Some(role_of(call.command, place).input()),
        None => None,
    };
    let form = call.form;
    let ended = tell(rt, Manner { form, input }, said);
    if call.talk == Talk::All && matches!(ended, Ended::Printed(_)) {
        match said {
            Ok(answer) => remark_on_answer(rt, &texts.deck, answer),
            Err(why) => remark_on_refusal(rt, call, texts, from, why),
        }
    }
    match said {
        Ok(answer) if call.exit_code && answer.tells() => ended.with_code(ExitCode::from(TELLS)),
        _ => ended,
    }
}

/// Says what a deck has that is accepted, where the first breach comes from, or how many edits a
/// difference has.
fn remark_on_answer<R: Eprint + AllocGlobal>(rt: &R, deck: &Text<'_, '_>, answer: &Answer<'_>) {
    match answer {
        Answer::Accepted(census) => {
            let name = title_of_text(deck.name);
            let _ = eprintln!(rt; "{name}: {census}");
        }
        Answer::Breaches(found) => {
            if let Some(first) = found.first() {
                remark(rt, deck, &Refusal::from(*first));
            }
        }
        Answer::Faults(found) => {
            if let Some(first) = found.first() {
                remark(rt, deck, &Refusal::from(*first));
                remark_on_others(rt, deck, Refusal::from(*first));
            }
        }
        Answer::Difference(difference) => remark_on_edits(rt, difference.edits),
        _ => (),
    }
}

/// Says where a refusal comes from, if it comes from the text of this place.
fn remark_on_refusal<R: Eprint + AllocGlobal>(
    rt: &R,
    call: &Call<'_, '_>,
    texts: &Texts<'_>,
    from: Option<usize>,
    why: &Refusal,
) {
    match from {
        Some(0) => remark_on_deck(rt, call, &texts.deck, why),
        Some(place) => remark_on_other(rt, call, texts.others, place, why),
        None => remark_on_nothing(rt, why),
    }
}

/// Says where in the deck a refusal comes from; for `check --all` all such places.
fn remark_on_deck<R: Eprint + AllocGlobal>(
    rt: &R,
    call: &Call<'_, '_>,
    deck: &Text<'_, '_>,
    why: &Refusal,
) {
    remark(rt, deck, why);
    if matches!(
        call.command,
        Command::Check {
            breaches: Breaches::All,
            ..
        }
    ) {
        remark_on_others(rt, deck, *why);
    }
}

/// Says where in the text of this place, behind the deck, a refusal comes from.
fn remark_on_other<R: Eprint + AllocGlobal>(
    rt: &R,
    call: &Call<'_, '_>,
    others: &[Vec<u8>],
    place: usize,
    why: &Refusal,
) {
    match (call.files.get(place), others.get(place.saturating_sub(1))) {
        (Some(name), Some(bytes)) => {
            let role = role_of(call.command, place);
            remark(rt, &Text::new(*name, role, bytes), why);
        }
        _ => remark_on_nothing(rt, why),
    }
}

/// The place of the text that a refusal comes from: 0, the deck, as long as no other was read; else that
/// of a change deck in which it has an origin, or 1. That memory is missing comes from none.
fn source_of<R: AllocGlobal>(
    rt: &R,
    call: &Call<'_, '_>,
    others: &[Vec<u8>],
    why: &Refusal,
) -> Option<usize> {
    if why.number == Rule::M1 {
        return None;
    }
    if others.is_empty() {
        return Some(0);
    }
    for before in 1..others.len() {
        let place = before.saturating_add(1);
        if is_from_other(rt, call, others, place, why)? {
            return Some(place);
        }
    }
    Some(1)
}

/// Whether a refusal comes from the text of this place, behind the deck; none if memory is missing.
fn is_from_other<R: AllocGlobal>(
    rt: &R,
    call: &Call<'_, '_>,
    others: &[Vec<u8>],
    place: usize,
    why: &Refusal,
) -> Option<bool> {
    match (call.files.get(place), others.get(place.saturating_sub(1))) {
        (Some(name), Some(bytes)) => {
            let role = role_of(call.command, place);
            match Text::new(*name, role, bytes).origin_of(rt.alloc(), *why) {
                Ok(origin) => Some(origin.is_some()),
                Err(_) => None,
            }
        }
        _ => Some(false),
    }
}

/// What the text of this place is to a command: 0 is the deck.
fn role_of(command: &Command<'_>, place: usize) -> Role {
    match command {
        Command::Diff { .. } | Command::Plan { .. } if place == 0 => Role::Old,
        Command::Diff { .. } | Command::Plan { .. } => Role::New,
        _ if place == 0 => Role::Deck,
        Command::Run { changes, .. } if place == 1 => Role::Script(changes.len() as u64),
        Command::Run { .. } => Role::ChangeOf(place.saturating_sub(1) as u64),
        Command::Apply { .. } | Command::PlanChange { .. } => Role::Change,
        _ => Role::Deck,
    }
}
