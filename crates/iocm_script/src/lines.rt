ghost use Rattle.std.specs.Prelude.{◌≡◌, ◌+◌, ◌^◌, ◌<◌, ◌≤◌, ◌∷◌, map, Some, IfOk, OnOk};
ghost use Rattle.iocm_types.specs.Fault.{Gives};
ghost use Rattle.iocm_script.specs.Lines as meaning;

use crate::commands::said;
use crate::line::Spoken;
use crate::words::{is_comment, words};
use crate::{Line, OperatorCommand, Said};
use iocm_columns::Card;
use iocm_types::{Fault, Rule};
use std::alloc::{AllocError, Global};

/// How many lines of operators a round may have, those of both together: what their queue has room
/// for, beside the two marks that end it.
const MOST_OPERATOR_LINES: usize = 14;

/// What the words of a line say, if they are those of a script's line.
fn spoken_by(line: usize, words: &[&[u8]]) -> Option<Spoken>
    ensures { result ≡ meaning.spoken_by line (map (λ w. w.now) words.now) }
{
    match words {
        [] => Some(Spoken::Nothing),
        [first, rest @ ..] => spoken_from(line, first, rest),
    }
}

/// What the first word of a line and those behind it say.
fn spoken_from(line: usize, first: &[u8], rest: &[&[u8]]) -> Option<Spoken>
    ensures { result ≡ meaning.spoken_by line (first.now ∷ map (λ w. w.now) rest.now) }
{
    match rest {
        [] => sync(first),
        [word, operands @ ..] => actors_line(line, first, word, operands),
    }
}

/// The line in which an actor says something.
fn actors_line(line: usize, actor: &[u8], word: &[u8], operands: &[&[u8]]) -> Option<Spoken>
    ensures { result ≡ meaning.actors_line line actor.now word.now (map (λ w. w.now) operands.now) }
{
    let said = said(actor, word, operands)?;
    Some(Spoken::Line(Line { line, said }))
}

/// The end of a round, if the word says so.
fn sync(word: &[u8]) -> Option<Spoken>
    ensures { result ≡ meaning.sync word.now }
{
    match word {
        b"sync" => Some(Spoken::Sync),
        _ => None,
    }
}

/// What a card of a script is, if it is one of a script.
fn spoken_on<'a>(alloc: Global, card: &Card<'a>) -> Result<Option<Spoken>, AllocError>
    ensures { IfOk result (λ spoken. spoken ≡ meaning.spoken_on card.now) }
{
    let bytes = card.bytes.as_slice();
    if is_comment(bytes) {
        return Ok(Some(Spoken::Nothing));
    }
    let words = words(alloc, bytes)?;
    Ok(spoken_by(card.line, &words))
}

/// The number of the change deck that a line names, if it names one.
fn deck_of(spoken: &Spoken) -> Option<u64>
    ensures { result ≡ meaning.deck_of spoken.now }
{
    match *spoken {
        Spoken::Line(line) => match line.said {
            Said::Operator(_, OperatorCommand::Activate(deck)) => Some(deck),
            Said::Operator(_, OperatorCommand::Begin(deck)) => Some(deck),
            _ => None,
        },
        _ => None,
    }
}

/// Whether a line names a change deck that isn't there.
fn names_no_deck(changes: u64, spoken: &Spoken) -> bool
    ensures { result ≡ meaning.names_no_deck changes spoken.now }
{
    match deck_of(spoken) {
        Some(deck) => deck > changes,
        None => false,
    }
}

/// Whether a line is an operator's.
fn is_operators(spoken: &Spoken) -> bool
    ensures { result ≡ meaning.is_operators spoken.now }
{
    match spoken {
        Spoken::Line(line) => matches!(line.said, Said::Operator(_, _)),
        _ => false,
    }
}

/// Whether a line is one more of an operator than a round may have, with so many lines of operators
/// before it in its round.
fn is_too_many(operators: usize, spoken: &Spoken) -> bool
    ensures { result ≡ meaning.is_too_many operators spoken.now }
{
    is_operators(spoken) && operators >= MOST_OPERATOR_LINES
}

/// What a card is, or its first fault of K1, K2 and K3. `operators` counts the lines of operators
/// in its round: those before the card, and then this one too if it is one.
fn read_card<'a>(
    alloc: Global,
    changes: u64,
    operators: &mut usize,
    card: &Card<'a>,
) -> Result<Spoken, Fault>
    requires { operators.old + 1 < 2 ^ 64 }
    ensures spoken { Gives (λ s. s) result (meaning.spoken_at changes operators.old card.now) }
    ensures said { IfOk result (λ s. meaning.spoken_on card.now ≡ Some s) }
    ensures count { IfOk result (λ s. operators.new ≡ meaning.operators_after operators.old s) }
    ensures most { OnOk result (operators.new ≤ operators.old + 1) }
{
    let line = card.line;
    let unknown = Fault {
        rule: Rule::K1,
        line,
    };
    let spoken = spoken_on(alloc, card)?.ok_or(unknown)?;
    if names_no_deck(changes, &spoken) {
        return Err(Fault {
            rule: Rule::K2,
            line,
        });
    }
    if is_too_many(*operators, &spoken) {
        return Err(Fault {
            rule: Rule::K3,
            line,
        });
    }
    *operators = operators_after(*operators, &spoken);
    Ok(spoken)
}

/// How many lines of operators the round has behind a line, with so many before it.
fn operators_after(operators: usize, spoken: &Spoken) -> usize
    requires { operators + 1 < 2 ^ 64 }
    ensures count { result ≡ meaning.operators_after operators spoken.now }
    ensures most { result ≤ operators + 1 }
{
    match spoken {
        Spoken::Nothing => operators,
        Spoken::Sync => 0,
        Spoken::Line(_) => {
            if is_operators(spoken) {
                operators + 1
            } else {
                operators
            }
        }
    }
}

/// What each card of a script is, or the first fault.
#[tactic(auto, using(iocm_types::proofs::Each::each_done))]
pub(crate) fn read_cards_of_script<'a>(
    alloc: Global,
    changes: u64,
    cards: &[Card<'a>],
) -> Result<Vec<Spoken>, Fault>
    ensures { Gives (λ v. v.items) result (meaning.lines_of changes cards.now) }
{
    // The checker finds the types inside a line only in a function that meets a slice of lines.
    let none: &[Spoken] = &[];
    let mut lines = Vec::from_slice(alloc, none)?;
    let mut operators = 0;
    for card in cards {
        lines.push(read_card(alloc, changes, &mut operators, card)?)?;
    }
    Ok(lines)
}
