ghost use Rattle.std.specs.Prelude.{◌≡◌, map};
ghost use Rattle.std.specs.Option.{option_copied};
ghost use Rattle.iocm_statements.specs.Unread.{Reads};
ghost use Rattle.iocm_values.specs.Value as meaning;
ghost use Rattle.iocm_values.specs.Value.{seen};

use iocm_statements::{Unread, pieces};
use std::alloc::Global;

/// The value of an operand, or an item of a list: a word, or a list by the text between its
/// parentheses. The bytes stay where they lie.
#[derive(Clone, Copy)]
pub enum Value<'a> {
    /// A text that isn't in parentheses, such as `50` or `CSS(0)`.
    Word(&'a [u8]),
    /// What stands between the parentheses of a text that begins with `(` and ends with `)`.
    List(&'a [u8]),
}

/// What stands between the parentheses of a text that begins with `(` and ends with `)`.
///
/// In a text whose parentheses match these two may still belong to different pairs, as in `(A)(B)`;
/// what stands between them then has no pieces.
fn inside<'a>(text: &'a [u8]) -> Option<&'a [u8]>
    ensures { option_copied result ≡ meaning.inside text.now }
{
    text.strip_prefix(b"(")?.strip_suffix(b")")
}

impl<'a> Value<'a> {
    /// The value that a text writes.
    pub fn new(text: &'a [u8]) -> Self
        ensures { seen result ≡ meaning.value text.now }
    {
        match inside(text) {
            Some(inner) => Value::List(inner),
            None => Value::Word(text),
        }
    }

    /// The text of a word; a list is none.
    pub fn word(self) -> Option<&'a [u8]>
        ensures { option_copied result ≡ meaning.word_text (seen self.entry) }
    {
        match self {
            Value::Word(text) => Some(text),
            Value::List(_) => None,
        }
    }

    /// The items of a list: `(A,(B,C))` has `A` and `(B,C)`, and `()` has one empty word. A word is
    /// malformed.
    pub fn items(self, alloc: Global) -> Result<Vec<Value<'a>>, Unread>
        ensures { Reads (λ v. map seen v.items) result (meaning.items (seen self.entry)) }
    {
        match self {
            Value::Word(_) => Err(Unread::Malformed),
            Value::List(inner) => values(alloc, inner),
        }
    }

    /// The items of a list, or the word as the only item.
    pub fn items_or_one(self, alloc: Global) -> Result<Vec<Value<'a>>, Unread>
        ensures { Reads (λ v. map seen v.items) result (meaning.items_or_one (seen self.entry)) }
    {
        match self {
            Value::Word(_) => {
                let mut only = Vec::new(alloc);
                only.push(self)?;
                Ok(only)
            }
            Value::List(inner) => values(alloc, inner),
        }
    }
}

/// The values between the commas of a text. Malformed where the parentheses do not match or a quote
/// does not end.
pub fn values<'a>(alloc: Global, text: &'a [u8]) -> Result<Vec<Value<'a>>, Unread>
    ensures { Reads (λ v. map seen v.items) result (meaning.values text.now) }
{
    let pieces = pieces(alloc, text)?;
    let mut values = Vec::with_capacity(alloc, pieces.len())?;
    for piece in &pieces {
        values.push(Value::new(piece))?;
    }
    Ok(values)
}
