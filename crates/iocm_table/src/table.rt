ghost use Rattle.std.specs.Prelude.{◌≡◌, ◌⊎◌, [], None, IsOk, IsSome, OnOk, ◌≤◌, if◌then◌else◌};
ghost use Rattle.std.specs.BTreeMap.{get, IsOrdered};
ghost use Rattle.std.specs.Option.{option_copied, option_copied_mut};
ghost use Rattle.std.specs.Borrow.{sem};
ghost use Rattle.std.specs.FinMap as map;
ghost use Rattle.iocm_table.specs.Lent.{lends_row};
ghost use Rattle.iocm_table.specs.Slots.{rows, present, HasPlace, RowsHavePlaces};

use iocm_types::TableKey;
use std::alloc::{AllocError, Allocator, Global};
use std::collections::BTreeMap;
use std::marker::Model;

/// Rows under keys, in the order of keys. A key that is taken out keeps its place. Contracts see
/// the rows as a finite map, and the keys that have a place.
#[derive(Drop)]
pub struct Table<K: TableKey, V, A: Allocator = Global> {
    pub(crate) slots: BTreeMap<K, Option<V>, A>,
    pub(crate) len: usize,
}

impl<K: TableKey, V, A: Allocator> Model for Table<K, V, A> {
    ghost use Rattle.std.specs.Prelude.{refl, List};
    ghost use Rattle.std.specs.Coded.{code_by, coded×, coded_list};
    ghost use Rattle.std.specs.BTreeMap.{keys};
    ghost use Rattle.iocm_table.specs.Slots.{Stored, present, AreCounted};

    ghost Value = { Stored K V };

    ghost coded = { code_by (List (K × V) × List K) (coded× (coded_list (coded× K.code V.code)) (coded_list K.code))
        (λ s. (s.listed, s.places)) (λ p. record { listed = p.0; places = p.1 }) (λ _. refl) };

    ghost view = { λ t. record { listed = present t.slots.entries; places = keys t.slots } };

    ghost invariant = { λ t. AreCounted K.cmp t.slots t.len };
}

impl<K: TableKey, V, A: Allocator> Table<K, V, A> {
    /// A table without rows and places. Can't run out of memory.
    pub fn new(alloc: A) -> Self
        ensures rows { rows K.order result ≡ map.empty }
        ensures places { result.places ≡ [] }
    {
        Table {
            slots: BTreeMap::new(alloc),
            len: 0,
        }
    }

    /// How many rows there are.
    pub fn len(&self) -> usize
        ensures { result ≡ map.len (rows K.order self.now) }
    {
        self.len
    }

    /// The row under a key.
    pub fn get(&self, key: &K) -> Option<&V>
        ensures { option_copied result ≡ map.get (rows K.order self.now) key.now }
    {
        let slot = self.slots.get(key)?;
        slot.as_ref()
    }

    /// The row under a key, to be changed in its place, by one search. Can't run out of memory.
    pub fn get_mut(&mut self, key: &K) -> Option<&mut V>
        ensures* writes_back { sem 𝓛 (lends_row K.row V.row A.row K.TableKey A.Allocator self.entry key.now result) }
        ensures value { option_copied_mut result ≡ map.get (rows K.order self.old) key.now }
    {
        match self.slots.get_mut(key)? {
            Some(row) => Some(row),
            None => None,
        }
    }

    /// A key that has a row has a place, in every table. It reads nothing, and is there for proofs:
    /// a row that is replaced needs no call of `room`.
    pub fn has_places(&self)
        ensures { RowsHavePlaces K.order self.now }
    {
        let _ = &self.len;
    }

    /// Gives a key a place, if it has none. Each other key that has a place keeps it, no other key
    /// gets one, and no row changes.
    ///
    /// `AllocError` (M1): memory ran out, which can't be where the key has a place already.
    pub fn room(&mut self, key: K) -> Result<(), AllocError>
    where
        K: Drop,
        V: Drop,
        A: Clone,
        ensures rows { rows K.order self.new ≡ rows K.order self.old }
        ensures ok { OnOk result (HasPlace K.order self.new key) }
        ensures kept { (q : K) → HasPlace K.order self.old q → HasPlace K.order self.new q }
        ensures no_more { (q : K) → HasPlace K.order self.new q → HasPlace K.order self.old q ⊎ (q ≡ key) }
        ensures succeeds { HasPlace K.order self.old key → IsOk result }
    {
        if self.slots.contains_key(&key) {
            return Ok(());
        }
        add_place(&mut self.slots, key)
    }

    /// Puts a row under a key that has a place, and gives back the row that was there. Can't run
    /// out of memory.
    pub fn put(&mut self, key: &K, row: V) -> Option<V>
        requires { HasPlace K.order self.old key.now }
        ensures before { result ≡ map.get (rows K.order self.old) key.now }
        ensures rows { rows K.order self.new ≡ map.insert (rows K.order self.old) key.now row }
        ensures places { self.new.places ≡ self.old.places }
    {
        // how many slots there are bounds the count of rows
        let _most = self.slots.len();
        let Some(slot) = self.slots.get_mut(key) else {
            unreachable!()
        };
        let before = slot.replace(row);
        self.len += one_if(before.is_none());
        before
    }

    /// Takes the row of a key out, if it has one. Its place stays. Can't run out of memory.
    pub fn take(&mut self, key: &K) -> Option<V>
        ensures before { result ≡ map.get (rows K.order self.old) key.now }
        ensures rows { rows K.order self.new ≡ map.remove (rows K.order self.old) key.now }
        ensures places { self.new.places ≡ self.old.places }
    {
        let slot = self.slots.get_mut(key)?;
        let before = slot.take();
        self.len -= one_if(before.is_some());
        before
    }
}

/// Gives a key that isn't there a place, which is empty.
fn add_place<K: TableKey + Drop, V: Drop, A: Allocator + Clone>(
    slots: &mut BTreeMap<K, Option<V>, A>,
    key: K,
) -> Result<(), AllocError>
    requires { get K.cmp slots.old key ≡ None }
    ensures rows { present slots.new.entries ≡ present slots.old.entries }
    ensures rise { IsOrdered K.cmp slots.new }
    ensures ok { OnOk result (IsSome (get K.cmp slots.new key)) }
    ensures kept { (q : K) → IsSome (get K.cmp slots.old q) → IsSome (get K.cmp slots.new q) }
    ensures no_more { (q : K) → IsSome (get K.cmp slots.new q) → IsSome (get K.cmp slots.old q) ⊎ (q ≡ key) }
{
    slots.insert(key, None)?;
    Ok(())
}

/// One where something is so, else nothing.
fn one_if(is_so: bool) -> usize
    ensures value { result ≡ (if is_so then 1 else 0) }
    ensures small { result ≤ 1 }
{
    if is_so { 1 } else { 0 }
}
