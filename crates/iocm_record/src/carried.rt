ghost use Rattle.std.specs.Prelude.{◌≡◌, IfOk, length, take};
ghost use Rattle.std.specs.Option.{option_copied};
ghost use Rattle.iocm_model.specs.Machine.Record.{CarriedOperand};

use iocm_types::Text;
use std::alloc::{AllocError, Allocator, Global};
use std::marker::Model;

/// An operand that is carried along as it stands: its text, under a keyword or bare. What the
/// product does not know of a statement is carried so, and written again.
#[derive(Drop)]
pub struct Carried<A: Allocator = Global> {
    keyword: Option<Text<A>>,
    text: Text<A>,
}

impl<A: Allocator> Model for Carried<A> {
    ghost use Rattle.iocm_model.specs.Machine.Record.{CarriedOperand};

    ghost Value = { CarriedOperand };

    ghost view = { λ c. record { keyword = c.keyword; text = c.text } };
}

impl<A: Allocator> Carried<A> {
    /// The operand with this keyword, or a bare one without.
    pub fn new(keyword: Option<Text<A>>, text: Text<A>) -> Self
        ensures { result ≡ record { keyword = keyword; text = text } }
    {
        Carried { keyword, text }
    }

    /// The keyword, or nothing for a bare text.
    pub fn keyword(&self) -> Option<&Text<A>>
        ensures { option_copied result ≡ self.now.keyword }
    {
        self.keyword.as_ref()
    }

    /// What stands behind the equal sign, or the whole of a bare text.
    pub fn text(&self) -> &Text<A>
        ensures { result.now ≡ self.now.text }
    {
        &self.text
    }
}

impl<A: Allocator> Carried<A> {
    /// The same operand under another allocator. Answers the lack of memory alone.
    pub fn copy_in<B: Allocator + Clone>(&self, alloc: B) -> Result<Carried<B>, AllocError>
        ensures { IfOk result (λ carried. carried ≡ self.now) }
    {
        let keyword = match &self.keyword {
            Some(keyword) => Some(keyword.copy_in(alloc.clone()?)?),
            None => None,
        };
        Ok(Carried {
            keyword,
            text: self.text.copy_in(alloc)?,
        })
    }
}

/// The same operands in their order under another allocator. Answers the lack of memory alone.
pub fn copy_carried<A: Allocator, B: Allocator + Clone>(
    carried: &[Carried<A>],
    alloc: B,
) -> Result<Vec<Carried<B>, B>, AllocError>
    ensures { IfOk result (λ copies. copies.items ≡ carried.now) }
{
    let mut copies = Vec::new(alloc.clone()?);
    for operand in carried {
        copies.push(operand.copy_in(alloc.clone()?)?)?;
    }
    Ok(copies)
}
