ghost use Rattle.std.specs.Prelude.{◌≡◌, ◌<◌, length, slice_index_or, IfOk};
ghost use Rattle.std.specs.Option.{option_copied};
ghost use Rattle.iocm_statements.specs.Operands as operand;

use crate::{ShortText, is_same_word};
use indexmap::IndexMap;
use std::alloc::{AllocError, Global};
use std::marker::Model;

/// What an operand stands under: its keyword, or, for a bare text, its place in the statement,
/// counted from 0 over all operands.
#[derive(Drop, PartialEq, Eq, Hash)]
pub enum OperandKey {
    Keyword(ShortText),
    Bare(usize),
}

impl OperandKey {
    /// Whether it is the keyword `keyword`.
    pub fn is_under(&self, keyword: &[u8]) -> bool
        ensures { result ≡ operand.is_under keyword.now self.now }
    {
        match self {
            OperandKey::Keyword(word) => is_same_word(word.as_slice(), keyword),
            OperandKey::Bare(_) => false,
        }
    }
}

/// The operands of a statement in their order. Contracts see the list of keys and texts.
#[derive(Drop)]
pub struct Operands {
    list: Vec<(OperandKey, ShortText)>,
}

impl Model for Operands {
    ghost use Rattle.std.specs.Prelude.{List, ℕ};
    ghost use Rattle.iocm_statements.specs.declared.operands.OperandKey.{OperandKey};

    ghost Value = { List (OperandKey × List ℕ) };

    ghost view = { λ o. o.list.items };
}

impl Operands {
    /// The operands of a list.
    pub(crate) fn from_list(list: Vec<(OperandKey, ShortText)>) -> Self
        ensures { result ≡ list.items }
    {
        Operands { list }
    }

    /// The operands of a map, in its order. A map has room for nine at the least, and a deck has a
    /// statement for each device, so the map is let go. Answers the lack of memory alone.
    pub(crate) fn from_map(
        alloc: Global,
        map: IndexMap<OperandKey, ShortText>,
    ) -> Result<Self, AllocError>
        ensures { IfOk result (λ operands. operands ≡ map.entries) }
    {
        Ok(Operands {
            list: map.into_iter().collect(alloc)?,
        })
    }

    /// How many operands there are.
    pub fn len(&self) -> usize
        ensures { result ≡ length self.now }
    {
        self.list.len()
    }

    /// The key and the text of the operand at `index`, counted from 0 in the order of the
    /// statement.
    pub fn at(&self, index: usize) -> (&OperandKey, &[u8])
        requires { index < length self.now }
        ensures { (result.0.now, result.1.now) ≡ slice_index_or self.now index (result.0.now, result.1.now) }
    {
        let (key, text) = &self.list[index];
        (key, text.as_slice())
    }

    /// The text of the operand with this keyword, which is empty for `FOO=`.
    pub fn get(&self, keyword: &[u8]) -> Option<&[u8]>
        ensures { option_copied result ≡ operand.text_under keyword.now self.now }
    {
        for index in 0..self.len() {
            let (key, text) = self.at(index);
            if key.is_under(keyword) {
                return Some(text);
            }
        }
        None
    }

    /// Whether one of the operands is `word` alone, with no equal sign.
    pub fn has_bare(&self, word: &[u8]) -> bool
        ensures { result ≡ operand.has_bare word.now self.now }
    {
        for index in 0..self.len() {
            let (key, text) = self.at(index);
            if is_bare_word(key, text, word) {
                return true;
            }
        }
        false
    }
}

/// Whether the operand with this key and text is `word` alone.
fn is_bare_word(key: &OperandKey, text: &[u8], word: &[u8]) -> bool
    ensures { result ≡ operand.is_bare_word word.now (key.now, text.now) }
{
    match key {
        OperandKey::Keyword(_) => false,
        OperandKey::Bare(_) => is_same_word(text, word),
    }
}
