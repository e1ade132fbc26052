ghost use Rattle.std.specs.Prelude.{◌≡◌, ◌-◌, length, map, take, IfOk, OnOk};
ghost use Rattle.iocm_values.specs.ItemWords as meaning;
ghost use Rattle.iocm_values.specs.ItemWords.{item_words};

use crate::word_list::{after, ends_word, next_from};
use iocm_statements::Nesting;
use std::alloc::{AllocError, Global};

// How many words there were before the last of the lists, which is done with.
fn end_list(lists: &mut Vec<usize>) -> usize
    ensures before { result ≡ meaning.before_last lists.old.items }
    ensures left { lists.new.items ≡ take (length lists.old.items - 1) lists.old.items }
{
    lists.pop().unwrap_or(0)
}

// Puts a piece that has ended behind the words so far. If it follows a list, it is no word; and if
// it is more than the list's parenthesis, the list's words go too.
#[tactic(auto, using(crate::proofs::ItemPassing::words_before))]
fn end_piece<'a>(
    found: &mut Vec<&'a [u8]>,
    lists: &mut Vec<usize>,
    text: &'a [u8],
) -> Result<(), AllocError>
    ensures found { OnOk result (map (λ k. k.now) found.new.items
        ≡ meaning.with_piece (map (λ k. k.now) found.old.items) lists.old.items text.now) }
    ensures lists { OnOk result (lists.new.items ≡ meaning.lists_left lists.old.items text.now) }
{
    let [b')', more @ ..] = text else {
        found.push(text)?;
        return Ok(());
    };
    let before = end_list(lists);
    if !more.is_empty() {
        found.truncate(before);
    }
    Ok(())
}

/// The words of a text's items at every depth, in the order of the text, in one pass: as `words`
/// has them, but for pieces in which something follows a list. `(A)X` and `(A)(B)` are no items, so
/// they have no words.
#[tactic(auto, using(crate::proofs::ItemPassing::item_steps))]
pub fn item_words<'a>(alloc: Global, text: &'a [u8]) -> Result<Vec<&'a [u8]>, AllocError>
    ensures { IfOk result (λ found. map (λ k. k.now) found.items ≡ item_words text.now) }
{
    let mut found = Vec::new(alloc);
    let mut lists = Vec::new(alloc);
    let mut from = 0;
    let mut nesting = Nesting::start();
    for (index, byte) in text.iter().enumerate() {
        if nesting.is_outside() && ends_word(*byte) {
            end_piece(&mut found, &mut lists, &text[from..index])?;
            from = next_from(index, *byte);
            nesting = Nesting::start();
        } else if nesting.is_outside() && *byte == b'(' && from == index {
            lists.push(found.len())?;
            from = index + 1;
        } else {
            nesting = after(nesting, *byte);
        }
    }
    end_piece(&mut found, &mut lists, &text[from..])?;
    Ok(found)
}
