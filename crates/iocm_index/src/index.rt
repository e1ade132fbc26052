ghost use Rattle.std.specs.Prelude.{◌≡◌, ◌<◌, ◌⊎◌, ◌||◌, ◌&&◌, not, [], Some, IsOk, IsTrue, OnOk, length, slice_get};
ghost use Rattle.std.specs.FinMap.{empty};
ghost use Rattle.iocm_types.specs.Naming.{naming_cmp};
ghost use Rattle.iocm_table.specs.Slots.{rows, HasPlace, RowsHavePlaces};
ghost use Rattle.iocm_types.specs.declared.naming.Naming as naming;
ghost use Rattle.iocm_model.specs.Machine.Naming.{named_by};
ghost use Rattle.iocm_index.specs.Namings.{namings_of, is_naming_of, is_linked, HavePlaces};

use iocm_record::Record;
use iocm_table::Table;
use iocm_types::Naming;
use std::alloc::{AllocError, Allocator, Global};
use std::marker::Model;

/// Which records name which things. Contracts see the set of namings, and those that have a place.
#[derive(Drop)]
pub struct Index<A: Allocator = Global> {
    pub(crate) namings: Table<Naming, (), A>,
}

impl<A: Allocator> Model for Index<A> {
    ghost use Rattle.iocm_types.specs.declared.naming.Naming.{Naming};
    ghost use Rattle.iocm_table.specs.Slots.{Stored};

    ghost Value = { Stored Naming (Unit {0}) };

    ghost view = { λ i. i.namings };
}

impl<A: Allocator> Index<A> {
    /// An index in which nobody names anything. Can't run out of memory.
    pub fn new(alloc: A) -> Self
        ensures namings { rows naming_cmp result ≡ empty }
        ensures places { result.places ≡ [] }
    {
        Index {
            namings: Table::new(alloc),
        }
    }

    /// A naming that is in the index has a place. It reads nothing, and is there for callers'
    /// proofs: what is unlinked can be linked again.
    pub fn has_places(&self)
        ensures { RowsHavePlaces naming_cmp self.now }
    {
        self.namings.has_places();
    }

    /// Gives each naming of a record a place, if it has none. Each other naming that has a place
    /// keeps it, no other naming gets one, and the set stays.
    ///
    /// `AllocError` (M1): memory ran out, which can't be where all have places already.
    pub fn room<B: Allocator>(&mut self, entry: &Record<B>) -> Result<(), AllocError>
    where
        A: Clone,
        ensures rows { rows naming_cmp self.new ≡ rows naming_cmp self.old }
        ensures ok { OnOk result (HavePlaces self.new (namings_of entry.now)) }
        ensures kept { (n : naming.Naming) → HasPlace naming_cmp self.old n → HasPlace naming_cmp self.new n }
        ensures no_more { (n : naming.Naming) → HasPlace naming_cmp self.new n
            → HasPlace naming_cmp self.old n ⊎ IsTrue (is_naming_of entry.now n) }
        ensures succeeds { HavePlaces self.old (namings_of entry.now) → IsOk result }
    {
        for place in 0..entry.names_len() {
            self.namings.room(naming_at(entry, place))?;
        }
        Ok(())
    }

    /// Puts the namings of a record in, each of which has a place, and no others. Can't run out
    /// of memory.
    pub fn link<B: Allocator>(&mut self, entry: &Record<B>)
        requires { HavePlaces self.old (namings_of entry.now) }
        ensures linked { (n : naming.Naming)
            → is_linked self.new n ≡ (is_naming_of entry.now n || is_linked self.old n) }
        ensures places { self.new.places ≡ self.old.places }
    {
        for place in 0..entry.names_len() {
            let _ = self.namings.put(&naming_at(entry, place), ());
        }
    }

    /// Takes the namings of a record out, and no others. Their places stay. Can't run out of
    /// memory.
    pub fn unlink<B: Allocator>(&mut self, entry: &Record<B>)
        ensures linked { (n : naming.Naming)
            → is_linked self.new n ≡ (not (is_naming_of entry.now n) && is_linked self.old n) }
        ensures places { self.new.places ≡ self.old.places }
    {
        for place in 0..entry.names_len() {
            let _ = self.namings.take(&naming_at(entry, place));
        }
    }
}

/// The naming at a place, counted from 0, of those of a record.
pub(crate) fn naming_at<B: Allocator>(entry: &Record<B>, place: usize) -> Naming
    requires { place < length (named_by entry.now) }
    ensures { slice_get (namings_of entry.now) place ≡ Some result }
{
    let user = entry.key();
    let Some(named) = entry.names(place) else {
        unreachable!()
    };
    Naming { named, user }
}
