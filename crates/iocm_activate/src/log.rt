ghost use Rattle.std.specs.Prelude.{◌≡◌, ◌<◌, ◌++◌, ◌∷◌, [], length, OnOk};
ghost use Rattle.iocm_activate.specs.Walked.{kept_through};
ghost use Rattle.std.specs.Vec.{vec_len, vec_capacity};

use iocm_plant::Applied;
use iocm_types::Key;
use std::alloc::{AllocError, Global};

/// What is known of the edits that were performed so far, in their order. The word is own.
#[derive(Drop)]
pub struct Log {
    /// What each did, and the edit that takes it back.
    pub done: Vec<Applied>,
    /// Their keys.
    pub keys: Vec<Key>,
    /// Before the edits from this place on the rules were kept.
    pub kept: usize,
}

/// A place in a log. The word is own.
#[derive(Clone, Copy)]
pub struct Mark {
    pub done: usize,
    pub keys: usize,
    pub kept: usize,
}

impl Log {
    /// A log that tells of no edit. Can't run out of memory.
    pub fn new(alloc: Global) -> Log
        ensures done { result.done.items ≡ [] }
        ensures keys { result.keys.items ≡ [] }
        ensures kept { result.kept ≡ 0 }
    {
        Log {
            done: Vec::new(alloc),
            keys: Vec::new(alloc),
            kept: 0,
        }
    }

    /// The end of the log as it is now.
    pub fn mark(&self) -> Mark
        ensures done { result.done ≡ length self.now.done.items }
        ensures keys { result.keys ≡ length self.now.keys.items }
        ensures kept { result.kept ≡ self.now.kept }
    {
        Mark {
            done: self.done.len(),
            keys: self.keys.len(),
            kept: self.kept,
        }
    }

    /// Makes room for one more edit.
    pub fn room(&mut self) -> Result<(), AllocError>
        ensures done { self.new.done.items ≡ self.old.done.items }
        ensures keys { self.new.keys.items ≡ self.old.keys.items }
        ensures kept { self.new.kept ≡ self.old.kept }
        ensures room { OnOk result (vec_len self.new.done < vec_capacity self.new.done) }
        ensures key_room { OnOk result (vec_len self.new.keys < vec_capacity self.new.keys) }
    {
        self.done.reserve(1)?;
        self.keys.reserve(1)
    }

    /// Tells of one more edit, for which there is room. Can't run out of memory.
    pub fn note(&mut self, key: Key, applied: Applied)
        requires room { vec_len self.old.done < vec_capacity self.old.done }
        requires key_room { vec_len self.old.keys < vec_capacity self.old.keys }
        ensures done { self.new.done.items ≡ self.old.done.items ++ applied ∷ [] }
        ensures keys { self.new.keys.items ≡ self.old.keys.items ++ key ∷ [] }
        ensures kept { self.new.kept ≡ self.old.kept }
    {
        self.done.push_reserved(applied);
        self.keys.push_reserved(key);
    }

    /// Tells of one more edit, for which there is room, and which left all records as they were.
    /// Where the rules were kept before it, they are kept after it. Can't run out of memory.
    pub fn note_unchanged(&mut self, key: Key, applied: Applied)
        requires room { vec_len self.old.done < vec_capacity self.old.done }
        requires key_room { vec_len self.old.keys < vec_capacity self.old.keys }
        ensures done { self.new.done.items ≡ self.old.done.items ++ applied ∷ [] }
        ensures keys { self.new.keys.items ≡ self.old.keys.items ++ key ∷ [] }
        ensures kept { self.new.kept ≡ kept_through self.old self.new }
    {
        let was_kept = self.kept == self.keys.len();
        self.note(key, applied);
        if was_kept {
            self.kept = self.keys.len();
        }
    }
}
