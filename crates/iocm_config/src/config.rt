ghost use Rattle.std.specs.Prelude.{◌≡◌, ◌⊎◌, ◌<◌, ◌^◌, [], IfOk, OnOk, IsOk, length};
ghost use Rattle.std.specs.Option.{option_copied};
ghost use Rattle.std.specs.Vec.{vec_items};
ghost use Rattle.std.specs.FinMap as map;
ghost use Rattle.iocm_types.specs.Key.{key_cmp};
ghost use Rattle.iocm_types.specs.declared.key.Key as keys;
ghost use Rattle.iocm_model.specs.Machine.Record.{key_of};
ghost use Rattle.iocm_model.specs.Machine.Configuration.{with_keys, configuration_of, HasNoKeyTwice, IsKeyed};
ghost use Rattle.iocm_table.specs.Slots.{rows_from};
ghost use Rattle.iocm_config.specs.Stored.{HasPlace, RecordsHavePlaces};
ghost use Rattle.iocm_config.specs.Walked.{AreOf};

use crate::listed::list_by_key;
use iocm_record::Record;
use iocm_table::{Rows, Table};
use iocm_types::Key;
use std::alloc::{AllocError, Allocator, Global};
use std::marker::Model;

/// A configuration: at most one record of each key. Contracts see the finite map of its records,
/// and the keys that have a place, under which a record can be put in without memory.
#[derive(Drop)]
pub struct Config<A: Allocator = Global> {
    table: Table<Key, Record<A>, A>,
}

impl<A: Allocator> Model for Config<A> {
    ghost use Rattle.std.specs.Prelude.{List, refl};
    ghost use Rattle.std.specs.FinMap as map;
    ghost use Rattle.std.specs.Coded.{code_by, coded×, coded_list, codes};
    ghost use Rattle.iocm_types.specs.declared.key.Key.{Key};
    ghost use Rattle.iocm_types.specs.Key.{key_cmp};
    ghost use Rattle.iocm_model.specs.Machine.Configuration.{Configuration, IsKeyed};
    ghost use Rattle.iocm_table.specs.Slots.{rows};
    ghost use Rattle.iocm_config.specs.Stored.{Stored};

    ghost Value = { Stored };

    ghost coded = { code_by (Configuration × List Key)
        (coded× (map.code (Prim.hlevel codes) (Prim.hlevel codes)) (coded_list (Prim.hlevel codes)))
        (λ s. (s.records, s.places)) (λ p. record { records = p.0; places = p.1 }) (λ _. refl) };

    ghost view = { λ c. record { records = rows key_cmp c.table; places = c.table.places } };

    ghost invariant = { λ c. IsKeyed (rows key_cmp c.table) };
}

impl<A: Allocator> Config<A> {
    /// The configuration with no records and no places. Can't run out of memory.
    pub fn new(alloc: A) -> Self
        ensures records { result.records ≡ map.empty }
        ensures places { result.places ≡ [] }
    {
        Config {
            table: Table::new(alloc),
        }
    }

    /// The configuration of these records, no two of one key; each key has a place. The time is in
    /// proportion to their number where they stand in the order of keys, and else to that of
    /// sorting them.
    ///
    /// `AllocError` (M1): memory ran out.
    pub fn from_records<B: Allocator>(
        alloc: A,
        records: Vec<Record<A>, B>,
    ) -> Result<Config<A>, AllocError>
    where
        A: Clone,
        requires { HasNoKeyTwice records.items }
        ensures { IfOk result (λ c. c.records ≡ configuration_of records.items) }
    {
        let listed = list_by_key(alloc.clone()?, records)?;
        let table = Table::from_rows(alloc, listed)?;
        Ok(Config { table })
    }

    /// The record of a key, if there is one.
    pub fn get(&self, key: &Key) -> Option<&Record<A>>
        ensures { option_copied result ≡ map.get self.now.records key.now }
    {
        self.table.get(key)
    }

    /// How many records there are.
    pub fn len(&self) -> usize
        ensures { result ≡ map.len self.now.records }
    {
        self.table.len()
    }

    /// Each record stands under its own key. It reads nothing, and is there for callers' proofs.
    pub fn has_own_keys(&self)
        ensures { IsKeyed self.now.records }
    {
        let _ = &self.table;
    }

    /// A key that has a record has a place. It reads nothing, and is there for callers' proofs: a
    /// record that is replaced needs no call of `room`.
    pub fn has_places(&self)
        ensures { RecordsHavePlaces self.now }
    {
        self.table.has_places();
    }

    /// All records with their keys, in the order of keys.
    pub fn walk(&self) -> Rows<'_, Key, Record<A>>
        ensures entries { result ≡ map.entries self.now.records }
        ensures fits { length result < 2 ^ 63 }
    {
        self.table.walk()
    }

    /// The records from a key on with their keys, in the order of keys. The time is that of one
    /// search.
    pub fn walk_from(&self, from: &Key) -> Rows<'_, Key, Record<A>>
        ensures entries { result ≡ rows_from key_cmp from.now (map.entries self.now.records) }
        ensures records { AreOf self.now.records result }
        ensures fits { length result < 2 ^ 63 }
    {
        self.table.walk_from(from)
    }

    /// Gives a key a place, if it has none. Each other key that has a place keeps it, no other key
    /// gets one, and no record changes.
    ///
    /// `AllocError` (M1): memory ran out, which can't be where the key has a place already.
    pub fn room(&mut self, key: Key) -> Result<(), AllocError>
    where
        A: Clone,
        ensures records { self.new.records ≡ self.old.records }
        ensures ok { OnOk result (HasPlace self.new key) }
        ensures kept { (q : keys.Key) → HasPlace self.old q → HasPlace self.new q }
        ensures no_more { (q : keys.Key) → HasPlace self.new q → HasPlace self.old q ⊎ (q ≡ key) }
        ensures succeeds { HasPlace self.old key → IsOk result }
    {
        self.table.room(key)
    }

    /// Puts a record in under its key, which has a place, and gives back the record that was there.
    /// Can't run out of memory.
    pub fn put(&mut self, entry: Record<A>) -> Option<Record<A>>
        requires { HasPlace self.old (key_of entry) }
        ensures before { result ≡ map.get self.old.records (key_of entry) }
        ensures records { self.new.records ≡ map.insert self.old.records (key_of entry) entry }
        ensures places { self.new.places ≡ self.old.places }
    {
        let key = entry.key();
        self.table.put(&key, entry)
    }

    /// Takes the record of a key out, if there is one. The key's place stays. Can't run out of
    /// memory.
    pub fn take(&mut self, key: &Key) -> Option<Record<A>>
        ensures before { result ≡ map.get self.old.records key.now }
        ensures records { self.new.records ≡ map.remove self.old.records key.now }
        ensures places { self.new.places ≡ self.old.places }
    {
        self.table.take(key)
    }
}
