ghost use Rattle.std.specs.Prelude.{◌≡◌, ◌<◌, ◌≤◌, ◌+◌, ◌^◌, ◌==◌, map, [], ◌∷◌};
ghost use Rattle.std.specs.Prelude.{◌++◌, unwrap_or, if◌then◌else◌, IfOk, OnOk};
ghost use Rattle.iocm_statements.specs.Nesting.{step};
ghost use Rattle.iocm_values.specs.Words as meaning;
ghost use Rattle.iocm_values.specs.Words.{words, ended};

use iocm_statements::Nesting;
use std::alloc::{AllocError, Global};

// Puts a word that has ended behind the others.
fn end<'a>(words: &mut Vec<&'a [u8]>, text: &'a [u8]) -> Result<(), AllocError>
    ensures { OnOk result (map (λ k. k.now) words.new.items ≡ map (λ k. k.now) words.old.items ++ ended text.now []) }
{
    if text != b")".as_slice() {
        words.push(text)?;
    }
    Ok(())
}

// Whether a byte ends a word outside quotes and parentheses of its own.
pub(crate) fn ends_word(byte: u8) -> bool
    ensures { result ≡ meaning.ends_word byte }
{
    byte == b',' || byte == b')'
}

// Where the next word begins behind a byte that ends one: a parenthesis belongs to it.
pub(crate) fn next_from(index: usize, byte: u8) -> usize
    requires { index + 1 < 2 ^ 64 }
    ensures { result ≡ (if byte == 41 then index else index + 1) }
{
    if byte == b')' { index } else { index + 1 }
}

// The nesting behind a byte that doesn't end a word.
pub(crate) fn after(nesting: Nesting, byte: u8) -> Nesting
    requires { nesting.depth + 1 < 2 ^ 64 }
    ensures next { result ≡ unwrap_or (step nesting byte) nesting }
    ensures depth { result.depth ≤ nesting.depth + 1 }
{
    nesting.after(byte).unwrap_or(nesting)
}

/// The words of a text at every depth, in the order of the text: a comma ends a word, and so does a
/// parenthesis that closes a list. What stands behind a list, as `)X` in `(A)X`, is a word that
/// begins with the parenthesis. `CSS(0,1)` is one word, for a parenthesis that opens behind a word
/// belongs to it.
#[tactic(auto, using(crate::proofs::Passing::word_steps))]
pub fn words<'a>(alloc: Global, text: &'a [u8]) -> Result<Vec<&'a [u8]>, AllocError>
    ensures { IfOk result (λ found. map (λ k. k.now) found.items ≡ words text.now) }
{
    let mut found = Vec::new(alloc);
    let mut from = 0;
    let mut nesting = Nesting::start();
    for (index, byte) in text.iter().enumerate() {
        if nesting.is_outside() && ends_word(*byte) {
            end(&mut found, &text[from..index])?;
            from = next_from(index, *byte);
            nesting = Nesting::start();
        } else if nesting.is_outside() && *byte == b'(' && from == index {
            from = index + 1;
        } else {
            nesting = after(nesting, *byte);
        }
    }
    end(&mut found, &text[from..])?;
    Ok(found)
}
