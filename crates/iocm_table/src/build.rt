ghost use Rattle.std.specs.Prelude.{◌≡◌, IfOk};
ghost use Rattle.std.specs.List.{IsDistinct};
ghost use Rattle.std.specs.Map.{keys_of};
ghost use Rattle.std.specs.Ordering.{eq_by_cmp};
ghost use Rattle.std.specs.Vec.{vec_items};
ghost use Rattle.std.specs.BTreeMap.{IsFromIterResult};
ghost use Rattle.std.specs.FinMap as map;
ghost use Rattle.iocm_table.specs.Slots.{rows, full_slots};

use crate::Table;
use iocm_types::TableKey;
use std::alloc::{AllocError, Allocator};
use std::collections::BTreeMap;

impl<K: TableKey + Drop, V: Drop, A: Allocator + Clone> Table<K, V, A> {
    /// The table of some rows, no two of which have one key; their keys have places, and no others.
    /// The time is in proportion to the number of rows where they stand in the order of keys, and
    /// else to that of sorting them.
    ///
    /// `AllocError` (M1): memory ran out.
    pub fn from_rows<B: Allocator>(alloc: A, listed: Vec<(K, V), B>) -> Result<Self, AllocError>
        requires { IsDistinct (eq_by_cmp K.order) (keys_of (vec_items listed)) }
        ensures rows { IfOk result (λ t. rows K.order t ≡ map.from_entries (vec_items listed)) }
        ensures places { IfOk result (λ t. t.places ≡ map.keys (rows K.order t)) }
    {
        let len = listed.len();
        let slots = make_slots(alloc, listed)?;
        Ok(Table { slots, len })
    }
}

/// A slot for each row.
fn make_slots<K: TableKey + Drop, V: Drop, A: Allocator + Clone, B: Allocator>(
    alloc: A,
    listed: Vec<(K, V), B>,
) -> Result<BTreeMap<K, Option<V>, A>, AllocError>
    ensures { IfOk result (IsFromIterResult K.cmp (full_slots (vec_items listed))) }
{
    listed
        .into_iter()
        .map(|row| (row.0, Some(row.1)))
        .collect(alloc)
}
