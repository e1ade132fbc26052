ghost use Rattle.std.specs.Prelude.{◌≡◌, length, IfOk};

use std::alloc::{AllocError, Allocator, Global};
use std::marker::Model;

/// A list of small values that owns its memory. Contracts see the list.
#[derive(Drop)]
pub struct List<T, A: Allocator = Global> {
    items: Vec<T, A>,
}

impl<T, A: Allocator> Model for List<T, A> {
    ghost use Rattle.std.specs.Prelude as std_words;

    ghost Value = { std_words.List T };

    ghost view = { λ l. l.items.items };
}

impl<T, A: Allocator> List<T, A> {
    /// The list of the items of a vector, in its memory.
    pub fn from_vec(items: Vec<T, A>) -> Self
        ensures { result ≡ items.items }
    {
        List { items }
    }

    /// The items in their order.
    pub fn as_slice(&self) -> &[T]
        ensures { result.now ≡ self.now }
    {
        self.items.as_slice()
    }
}

impl<T: Copy, A: Allocator> List<T, A> {
    /// The same list under another allocator. Answers the lack of memory alone.
    pub fn copy_in<B: Allocator>(&self, alloc: B) -> Result<List<T, B>, AllocError>
        ensures { IfOk result (λ list. list ≡ self.now) }
    {
        Ok(List {
            items: Vec::from_slice(alloc, self.items.as_slice())?,
        })
    }
}
