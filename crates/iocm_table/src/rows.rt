ghost use Rattle.std.specs.Prelude.{◌≡◌, ◌<◌, ◌^◌, length};
ghost use Rattle.std.specs.FinMap as map;
ghost use Rattle.std.specs.Iterator.{at_most};
ghost use Rattle.std.specs.Map.Iter.{TakesFirst, deref_pair};
ghost use Rattle.iocm_table.specs.Slots.{rows, rows_from};

use crate::Table;
use iocm_types::TableKey;
use std::alloc::Allocator;
use std::collections::btree_map::Range;
use std::marker::Model;

/// A walk over the rows of a table, in the order of keys. Contracts see the rows that are left.
#[derive(Drop)]
pub struct Rows<'a, K, V> {
    slots: Range<'a, K, Option<V>>,
}

impl<'a, K, V> Model for Rows<'a, K, V> {
    ghost use Rattle.std.specs.Prelude.{List};
    ghost use Rattle.iocm_table.specs.Slots.{present};

    ghost Value = { List (K × V) };

    ghost view = { λ r. present r.slots };
}

impl<'a, K, V> Iterator for Rows<'a, K, V> {
    type Item = (&'a K, &'a V);

    ghost next_gives = { TakesFirst deref_pair };

    ghost remaining = { λ s. at_most (length s) };

    fn next(&mut self) -> Option<(&'a K, &'a V)> {
        while let Some((key, slot)) = self.slots.next() {
            if let Some(row) = slot {
                return Some((key, row));
            }
        }
        None
    }
}

impl<K: TableKey, V, A: Allocator> Table<K, V, A> {
    /// All rows, in the order of keys.
    pub fn walk(&self) -> Rows<'_, K, V>
        ensures entries { result ≡ map.entries (rows K.order self.now) }
        ensures fits { length result < 2 ^ 63 }
    {
        Rows {
            slots: self.slots.range(..),
        }
    }

    /// The rows from a key on, in the order of keys.
    pub fn walk_from(&self, from: &K) -> Rows<'_, K, V>
        ensures entries { result ≡ rows_from K.order from.now (map.entries (rows K.order self.now)) }
        ensures fits { length result < 2 ^ 63 }
    {
        Rows {
            slots: self.slots.range(from..),
        }
    }
}
