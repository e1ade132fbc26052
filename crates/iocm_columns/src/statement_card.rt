ghost use Rattle.std.specs.Prelude.{◌≡◌};
ghost use Rattle.iocm_types.specs.Fault.{Gives};
ghost use Rattle.iocm_columns.specs.StatementCards.{continuation_fault, margin_fault, rows_of, statement_card};

use crate::Card;
use crate::columns::Columns;
use crate::lines::{make_card, next_line};
use iocm_types::{Fault, Rule};
use std::alloc::Global;

/// A line that is no comment and not blank: its number and its columns.
#[derive(Drop)]
pub(crate) struct StatementCard<'a> {
    pub(crate) line: usize,
    pub(crate) columns: Columns<'a>,
}

/// The cards of a text that are no comments and not blank, or the fault of the first line that is
/// refused. All lines are checked, and none but these is kept.
#[tactic(auto, using(crate::proofs::Gathering::gathering))]
pub(crate) fn statement_cards<'a>(
    alloc: Global,
    text: &'a [u8],
) -> Result<Vec<StatementCard<'a>>, Fault>
    ensures { Gives (λ v. v.items) result (rows_of text.now) }
{
    let mut found = Vec::new(alloc);
    let mut rest = text;
    let mut above = 0;
    while let Some((line, more)) = next_line(rest) {
        above += 1;
        let row = make_statement_card(&make_card(above, line)?);
        if !row.columns.is_skipped() {
            found.push(row)?;
        }
        rest = more;
    }
    Ok(found)
}

fn make_statement_card<'a>(card: &Card<'a>) -> StatementCard<'a>
    ensures { result ≡ statement_card card.now }
{
    StatementCard {
        line: card.line,
        columns: Columns::of(card.bytes.as_slice()),
    }
}

/// The fault between a card and the next one, if there is one.
pub(crate) fn continuation_fault<'a>(
    row: &StatementCard<'a>,
    more: &[StatementCard<'a>],
) -> Option<Fault>
    ensures { result ≡ continuation_fault row.now more.now }
{
    if !row.columns.is_continued() {
        return None;
    }
    match more.first() {
        None => Some(Fault {
            rule: Rule::L4,
            line: row.line,
        }),
        Some(next) => margin_fault(next),
    }
}

fn margin_fault(next: &StatementCard) -> Option<Fault>
    ensures { result ≡ margin_fault next.now }
{
    if next.columns.has_margin() {
        return None;
    }
    Some(Fault {
        rule: Rule::L3,
        line: next.line,
    })
}
