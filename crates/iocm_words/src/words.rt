ghost use Rattle.std.specs.Prelude.{◌≡◌, ◌∷◌, ◌++◌, map, IfOk, OnOk};
ghost use Rattle.std.specs.Fmt.{decimal};
ghost use Rattle.std.specs.List.{join_with_byte};
ghost use Rattle.std.specs.Option.{option_map};
ghost use Rattle.iocm_types.specs.Print.{hex4};
ghost use Rattle.iocm_words.specs.Words as meaning;

use iocm_types::{Chpid, Css, Name, Text, UnitNo};
use iocm_values::printed;
use std::alloc::{AllocError, Global};

/// The word for nothing.
fn nothing(alloc: Global) -> Result<Vec<u8>, AllocError>
    ensures { IfOk result (λ word. word.items ≡ meaning.nothing) }
{
    Vec::from_slice(alloc, b"-")
}

/// A byte of a word: an underline for a blank, or for what is below it.
fn underlined(byte: u8) -> u8
    ensures { result ≡ meaning.underlined byte }
{
    if byte <= b' ' { b'_' } else { byte }
}

/// A text that a statement carries, as a word: an underline stands for each blank. `-` if the text
/// isn't there, or is empty. Answers the lack of memory alone.
pub fn carried_word(alloc: Global, text: Option<&[u8]>) -> Result<Vec<u8>, AllocError>
    ensures { IfOk result (λ word. word.items ≡ meaning.carried_word (option_map (λ t. t.now) text.entry)) }
{
    let Some(text) = text else {
        return nothing(alloc);
    };
    if text.is_empty() {
        return nothing(alloc);
    }
    text.iter().map(|byte| underlined(*byte)).collect(alloc)
}

/// Puts words behind a text, with a byte between them. Answers the lack of memory alone.
pub fn put_joined(text: &mut Vec<u8>, words: &[Text], byte: u8) -> Result<(), AllocError>
    ensures { OnOk result (text.new.items ≡ text.old.items ++ join_with_byte byte words.now) }
{
    for (place, word) in words.iter().enumerate() {
        if place > 0 {
            text.push(byte)?;
        }
        text.extend_from_slice(word.as_slice())?;
    }
    Ok(())
}

/// Words with a byte between them; `-` if there are none. Answers the lack of memory alone.
pub fn joined_word(alloc: Global, words: &[Text], byte: u8) -> Result<Vec<u8>, AllocError>
    ensures { IfOk result (λ word. word.items ≡ meaning.joined_word byte words.now) }
{
    if words.is_empty() {
        return nothing(alloc);
    }
    let mut text = Vec::new(alloc);
    put_joined(&mut text, words, byte)?;
    Ok(text)
}

/// Words with commas between them, as one word; `-` if there are none. Answers the lack of memory
/// alone.
pub fn comma_word(alloc: Global, words: &[Text]) -> Result<Vec<u8>, AllocError>
    ensures { IfOk result (λ word. word.items ≡ meaning.comma_word words.now) }
{
    joined_word(alloc, words, b',')
}

/// A count in decimal. Answers the lack of memory alone.
pub fn count_word(alloc: Global, count: u64) -> Result<Vec<u8>, AllocError>
    ensures { IfOk result (λ word. word.items ≡ decimal count) }
{
    let text = format!(in alloc; "{count}")?;
    Ok(text.into_bytes())
}

/// Puts a digit behind others, and a comma behind it if groups of three are left.
fn put_digit(word: &mut Vec<u8>, digit: u8, left: usize) -> Result<(), AllocError>
    ensures { OnOk result (word.new.items ≡ word.old.items ++ (digit ∷ meaning.comma_before left)) }
{
    word.push(digit)?;
    if left > 0 && left % 3 == 0 {
        word.push(b',')?;
    }
    Ok(())
}

/// A count in decimal, with commas between groups of three digits, as `4,352`. Answers the lack of
/// memory alone.
pub fn grouped_word(alloc: Global, count: u64) -> Result<Vec<u8>, AllocError>
    ensures { IfOk result (λ word. word.items ≡ meaning.grouped (decimal count)) }
{
    let digits = count_word(alloc, count)?;
    grouped_digits(alloc, &digits)
}

/// Digits with commas between groups of three.
fn grouped_digits(alloc: Global, digits: &[u8]) -> Result<Vec<u8>, AllocError>
    ensures { IfOk result (λ word. word.items ≡ meaning.grouped digits.now) }
{
    let mut word = Vec::new(alloc);
    for (place, digit) in digits.iter().enumerate() {
        put_digit(&mut word, *digit, digits.len() - place - 1)?;
    }
    Ok(word)
}

/// A channel path with its channel subsystem, as `0.40`. Answers the lack of memory alone.
pub fn path_word(alloc: Global, css: Css, path: Chpid) -> Result<Vec<u8>, AllocError>
    ensures { IfOk result (λ word. word.items ≡ meaning.path_word css path) }
{
    let text = format!(in alloc; "{css}.{path}")?;
    Ok(text.into_bytes())
}

/// A control unit, as `2000`. Answers the lack of memory alone.
pub fn unit_word(alloc: Global, unit: UnitNo) -> Result<Vec<u8>, AllocError>
    ensures { IfOk result (λ word. word.items ≡ hex4 unit) }
{
    let text = format!(in alloc; "{unit}")?;
    Ok(text.into_bytes())
}

/// Control units with commas between them; `-` if there are none. Answers the lack of memory alone.
pub fn units_word(alloc: Global, units: &[UnitNo]) -> Result<Vec<u8>, AllocError>
    ensures { IfOk result (λ word. word.items ≡ meaning.comma_word (map hex4 units.now)) }
{
    let mut words = Vec::new(alloc);
    for unit in units {
        words.push(printed(alloc, unit)?)?;
    }
    comma_word(alloc, &words)
}

/// Names of images with commas between them; `-` if there are none. Answers the lack of memory
/// alone.
pub fn names_word(alloc: Global, names: &[Name]) -> Result<Vec<u8>, AllocError>
    ensures { IfOk result (λ word. word.items ≡ meaning.comma_word names.now) }
{
    let mut words = Vec::new(alloc);
    for name in names {
        words.push(Text::from_slice(alloc, name.as_bytes())?)?;
    }
    comma_word(alloc, &words)
}
