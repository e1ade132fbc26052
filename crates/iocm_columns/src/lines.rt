ghost use Rattle.std.specs.Prelude.{◌≡◌, ◌<◌, ◌≤◌, ◌==◌, ◌&&◌, false, true, ◌+◌, [], ◌∷◌, length};
ghost use Rattle.std.specs.Prelude.{All, IfNone, IfSome, MatchOption, take, drop};
ghost use Rattle.std.specs.List.{fold, list_all, position};
ghost use Rattle.std.specs.Str.Lines.{lines, strip_carriage_return};
ghost use Rattle.iocm_types.specs.Fault.{Gives};
ghost use Rattle.iocm_columns.specs.Cards.{card_of, cards_of, is_printable};

use crate::{Card, CardBytes};
use iocm_types::{Fault, Rule};
use memchr::memchr;
use std::alloc::Global;

/// The lines of the bytes of a deck.
///
/// The lines are checked in order, comments and blank lines and columns 73 to 80 too, each for L1
/// (a byte that is not printable ASCII) before L2 (more than 80 bytes). A line ends at LF or where
/// the bytes end, and none follows a last LF. One CR directly before an LF belongs to the line end
/// and isn't counted; any other CR is L1.
///
/// Source: a card of 80 columns, as in the IOCP User's Guide, coding macroinstructions; the rest is
/// own.
///
/// Promise: lines are read exactly, or the first of L1 and L2 is answered.
#[tactic(auto, using(crate::proofs::Listing::first_steps))]
pub fn cards<'a>(alloc: Global, text: &'a [u8]) -> Result<Vec<Card<'a>>, Fault>
    ensures { Gives (λ v. v.items) result (cards_of text.now) }
{
    let mut cards = Vec::new(alloc);
    let mut rest = text;
    let mut above = 0;
    while let Some((line, more)) = next_line(rest) {
        above += 1;
        cards.push(make_card(above, line)?)?;
        rest = more;
    }
    Ok(cards)
}

/// The first line of `text` without its line end, and what follows it; none where no line is left.
#[tactic(auto, using(crate::proofs::Cutting::first_lines))]
pub(crate) fn next_line(text: &[u8]) -> Option<(&[u8], &[u8])>
    ensures lines { MatchOption result (lines text.now ≡ [])
        (λ p. lines text.now ≡ p.0.now ∷ lines p.1.now) }
    ensures shorter { IfSome result (λ p. length p.1.now < length text.now) }
{
    if text.is_empty() {
        return None;
    }
    match line_feed(text) {
        None => Some((text, &[])),
        Some(at) => {
            let (line, end) = text.split_at(at);
            let (_, more) = end.split_at(1);
            Some((without_return(line), more))
        }
    }
}

#[tactic(auto, using(crate::proofs::FirstByte::first_bytes))]
fn line_feed(text: &[u8]) -> Option<usize>
    ensures found { result ≡ position (λ b. b == 10) text.now }
    ensures none { IfNone result (All (λ b. (b == 10) ≡ false) text.now) }
{
    memchr(b'\n', text)
}

/// The line without the one carriage return at its end, if it has one.
fn without_return(line: &[u8]) -> &[u8]
    ensures { result.now ≡ strip_carriage_return line.now }
{
    match line {
        [front @ .., b'\r'] => front,
        _ => line,
    }
}

/// A line as a card, unless it is refused.
pub(crate) fn make_card<'a>(line: usize, bytes: &'a [u8]) -> Result<Card<'a>, Fault>
    ensures { result ≡ card_of line bytes.now }
{
    if !are_printable(bytes) {
        return Err(Fault {
            rule: Rule::L1,
            line,
        });
    }
    if bytes.len() > 80 {
        return Err(Fault {
            rule: Rule::L2,
            line,
        });
    }
    Ok(Card {
        line,
        bytes: CardBytes::of(bytes),
    })
}

/// Whether all bytes are printable ASCII. No byte ends the loop, so that the processor takes many
/// at once.
#[tactic(auto, using(crate::proofs::Printable::all_in_turn))]
fn are_printable(bytes: &[u8]) -> bool
    ensures { result ≡ list_all is_printable bytes.now }
{
    in_turn(bytes)
}

/// The same, byte by byte.
fn in_turn(bytes: &[u8]) -> bool
    ensures { result ≡ fold (λ so_far b. so_far && is_printable b) true bytes.now }
{
    bytes
        .iter()
        .fold(true, |so_far, byte| goes_on(so_far, *byte))
}

fn goes_on(so_far: bool, byte: u8) -> bool
    ensures { result ≡ (so_far && is_printable byte) }
{
    so_far & (0x20 <= byte) & (byte <= 0x7e)
}
