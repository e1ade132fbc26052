ghost use Rattle.std.specs.Prelude.{◌≡◌, map};
ghost use Rattle.iocm_statements.specs.Unread.{Reads};
ghost use Rattle.iocm_statements.specs.Pieces.{pieces_of};

use crate::Unread;
use crate::nesting::Nesting;
use std::alloc::Global;

/// How many pieces there is room for at first: most lists have no more.
const USUAL: usize = 16;

/// Cuts `text` at its commas outside parentheses and quotes: `A,(B,C)` gives `A` and `(B,C)`, and
/// the empty text gives one empty piece.
///
/// Malformed where the parentheses do not match or a quote does not end.
/// (IOCP User's Guide, coding of operands.)
#[tactic(auto, using(crate::proofs::Cutting::cutting), unfolding(crate::specs::Pieces::pieces_from))]
pub fn pieces<'a>(alloc: Global, text: &'a [u8]) -> Result<Vec<&'a [u8]>, Unread>
    ensures { Reads (λ v. map (λ k. k.now) v.items) result (pieces_of text.now) }
{
    let mut pieces = Vec::with_capacity(alloc, USUAL)?;
    let mut from = 0;
    let mut nesting = Nesting::start();
    for (index, byte) in text.iter().enumerate() {
        if nesting.cuts(*byte) {
            pieces.push(&text[from..index])?;
            from = index + 1;
        } else {
            nesting = nesting.after(*byte).ok_or(Unread::Malformed)?;
        }
    }
    if !nesting.is_outside() {
        return Err(Unread::Malformed);
    }
    pieces.push(&text[from..])?;
    Ok(pieces)
}
