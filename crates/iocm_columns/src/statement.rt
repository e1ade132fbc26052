ghost use Rattle.std.specs.Prelude.{◌≡◌, ◌<◌, [], length, IfOk};
ghost use Rattle.std.specs.List.{fold};
ghost use Rattle.iocm_types.specs.Fault.{Gives};
ghost use Rattle.iocm_columns.specs.Part.{part_after};
ghost use Rattle.iocm_columns.specs.StatementCards.{first_continuation_fault};
ghost use Rattle.iocm_columns.specs.Statements.{joined_of, statement_of, unless_fault, with_continuation};

use crate::Joined;
use crate::columns::{continuation, words};
use crate::part::Part;
use crate::statement_card::{StatementCard, continuation_fault, statement_cards};
use iocm_types::{Fault, Text};
use std::alloc::{AllocError, Global};

/// The statements of the bytes of a deck, each with its continuations joined.
///
/// All lines are checked first, as `cards` says: L1 and L2 of any line come before L3 and L4. Only
/// the cards of statements are kept, so the memory doesn't grow with comments and blank lines.
///
/// Cards that are blank in columns 1 to 72 or have an asterisk in column 1 are skipped, also
/// between continuations and inside quotes. A card with a nonblank column 72 is continued by the
/// next one that isn't skipped: L4 with its line where none follows, L3 with the line of the
/// continuation where columns 1 to 15 of that aren't blank; the first of them by place, in remarks
/// too. A statement stands in columns 1 to 71, a continuation in columns 16 to 71. The name begins
/// in column 1, the operation is the next word, and the operand part begins behind it and ends
/// before the first blank outside quotes.
///
/// The operand part goes on exactly at column 16 where it ran through column 71 and is inside
/// quotes or has no comma there; at the first nonblank from column 16 on where it is empty or ends
/// in a comma outside quotes; else the continuations are remark.
///
/// Source: IOCP User's Guide, coding macroinstructions, continuation; where a part goes on is own.
///
/// Promise: a deck is joined to statements exactly, or its first fault of L1 to L4 is answered.
pub fn join(alloc: Global, text: &[u8]) -> Result<Vec<Joined>, Fault>
    ensures { Gives (λ v. v.items) result (joined_of text.now) }
{
    let rows = statement_cards(alloc, text)?;
    statements(alloc, &rows)
}

/// Each card with its continuations as a statement, or the first fault between two cards.
#[tactic(auto, using(crate::proofs::Grouping::grouping))]
fn statements<'a>(alloc: Global, rows: &[StatementCard<'a>]) -> Result<Vec<Joined>, Fault>
    ensures { Gives (λ v. v.items) result (unless_fault (first_continuation_fault rows.now) rows.now) }
{
    let mut statements = Vec::new(alloc);
    let mut first = 0;
    for (place, row) in rows.iter().enumerate() {
        let (so_far, more) = rows.split_at(place + 1);
        if let Some(fault) = continuation_fault(row, more) {
            return Err(fault);
        }
        if !row.columns.is_continued() {
            let (_, cards) = so_far.split_at(first);
            statements.push(make_statement(alloc, cards)?)?;
            first = place + 1;
        }
    }
    Ok(statements)
}

/// A card and its continuations as a statement.
#[tactic(auto, using(crate::proofs::Grouping::statement_from_first))]
fn make_statement<'a>(alloc: Global, cards: &[StatementCard<'a>]) -> Result<Joined, AllocError>
    requires { 0 < length cards.now }
    ensures { IfOk result (λ joined. joined ≡ statement_of cards.now) }
{
    let first = &cards[0];
    let padded = first.columns.padded();
    let (name, operation, columns) = words(&padded);
    Ok(Joined {
        line: first.line,
        name: Text::from_slice(alloc, name)?,
        operation: Text::from_slice(alloc, operation)?,
        text: operands(alloc, columns, &cards[1..])?,
    })
}

/// The operand part that begins in these columns and goes on in these continuations.
fn operands(alloc: Global, columns: &[u8], more: &[StatementCard]) -> Result<Text, AllocError>
    ensures { IfOk result
        (λ text. text ≡ (fold with_continuation (part_after [] columns.now) more.now).text) }
{
    let mut part = Part::begin(alloc, columns)?;
    for row in more {
        part.go_on(continuation(&row.columns.padded()))?;
    }
    Ok(part.into_text())
}
