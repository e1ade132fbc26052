ghost use Rattle.std.specs.Prelude.{◌≡◌, IfOk};
ghost use Rattle.std.specs.Option.{option_copied};
ghost use Rattle.iocm_model.specs.Change.Edit.{action_key, record_after};
ghost use Rattle.iocm_tree.specs.Carried.{action_of, verb_of};

use crate::Verb;
use iocm_record::Record;
use iocm_types::Key;
use std::alloc::{AllocError, Allocator, Global};

/// What an edit does with one record of a configuration, with the record's memory. The word is own.
#[derive(Drop)]
pub enum Action<A: Allocator = Global> {
    /// This record is added.
    Add(Record<A>),
    /// The record of this key is deleted.
    Delete(Key),
    /// This record replaces the one of its key.
    Modify(Record<A>),
}

impl<A: Allocator> Action<A> {
    /// The key of the record that is added, deleted or modified.
    pub fn key(&self) -> Key
        ensures { result ≡ action_key (action_of self.now) }
    {
        match self {
            Action::Add(entry) | Action::Modify(entry) => entry.key(),
            Action::Delete(key) => *key,
        }
    }

    /// Whether it adds, deletes or modifies.
    pub fn verb(&self) -> Verb
        ensures { result ≡ verb_of (action_of self.now) }
    {
        match self {
            Action::Add(_) => Verb::Add,
            Action::Delete(_) => Verb::Delete,
            Action::Modify(_) => Verb::Modify,
        }
    }

    /// The record that stands under the key afterwards; none after a deletion.
    pub fn after(&self) -> Option<&Record<A>>
        ensures { option_copied result ≡ record_after (action_of self.now) }
    {
        match self {
            Action::Add(entry) | Action::Modify(entry) => Some(entry),
            Action::Delete(_) => None,
        }
    }

    /// The same action under another allocator.
    ///
    /// `AllocError` (M1): memory ran out.
    pub fn copy_in<B: Allocator + Clone>(&self, alloc: B) -> Result<Action<B>, AllocError>
        ensures { IfOk result (λ copy. action_of copy ≡ action_of self.now) }
    {
        Ok(match self {
            Action::Add(entry) => Action::Add(entry.copy_in(alloc)?),
            Action::Delete(key) => Action::Delete(*key),
            Action::Modify(entry) => Action::Modify(entry.copy_in(alloc)?),
        })
    }
}
