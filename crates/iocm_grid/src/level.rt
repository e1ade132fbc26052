ghost use Rattle.std.specs.Prelude.{◌≡◌, ◌<◌, [], length, OnOk};
ghost use Rattle.std.specs.Borrow.{sem};
ghost use Rattle.std.specs.List.{slice_get};
ghost use Rattle.std.specs.Option.{option_copied, option_copied_mut};
ghost use Rattle.iocm_grid.specs.Level.{lends_item, IsLonger, is_bare, is_empty};

use std::alloc::{AllocError, Allocator};
use std::marker::Model;

/// A list whose items are found by their index. Contracts see the items.
#[derive(Drop)]
pub struct Level<T, A: Allocator> {
    items: Vec<T, A>,
}

impl<T, A: Allocator> Model for Level<T, A> {
    ghost use Rattle.std.specs.Prelude.{List};

    ghost Value = { List T };

    ghost view = { λ l. l.items.items };
}

impl<T, A: Allocator> Level<T, A> {
    /// No items.
    pub fn new(alloc: A) -> Self
        ensures { result ≡ [] }
    {
        Level {
            items: Vec::new(alloc),
        }
    }

    /// The item at an index.
    pub fn get(&self, index: usize) -> Option<&T>
        ensures { option_copied result ≡ slice_get self.now index }
    {
        self.items.get(index)
    }

    /// The item at an index, to be changed in its place.
    pub fn get_mut(&mut self, index: usize) -> Option<&mut T>
        ensures* writes_back { sem 𝓛 (lends_item T.row A.row A.Allocator self.entry index result) }
        ensures value { option_copied_mut result ≡ slice_get self.old index }
    {
        self.items.get_mut(index)
    }
}

impl<T: Drop, A: Allocator + Clone> Level<Level<T, A>, A> {
    /// Makes the list reach an index, by lists without items.
    ///
    /// `AllocError`: memory ran out. Then the list may have become longer.
    pub fn reach(&mut self, index: usize) -> Result<(), AllocError>
        ensures longer { IsLonger is_bare self.old self.new }
        ensures reaches { OnOk result (index < length self.new) }
    {
        while self.items.len() <= index {
            let alloc = self.items.allocator().clone()?;
            self.items.push(Level::new(alloc))?;
        }
        Ok(())
    }
}

impl<V: Drop, A: Allocator> Level<Option<V>, A> {
    /// Makes the list reach an index, by slots without rows. One that comes to twice its length at
    /// least gets its memory at once, with an eighth to spare for numbers that come later.
    ///
    /// `AllocError`: memory ran out. Then the list may have become longer.
    pub fn reach_slot(&mut self, index: usize) -> Result<(), AllocError>
        ensures longer { IsLonger is_empty self.old self.new }
        ensures reaches { OnOk result (index < length self.new) }
    {
        let len = self.items.len();
        if len <= index / 2 {
            self.items
                .reserve_exact((index - len).saturating_add(index / 8 + 1))?;
        }
        while self.items.len() <= index {
            self.items.push(None)?;
        }
        Ok(())
    }
}
