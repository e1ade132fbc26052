ghost use Rattle.std.specs.Prelude.{◌≡◌};
ghost use Rattle.std.specs.FinMap as map;
ghost use Rattle.std.specs.FinMap.{contains_key};
ghost use Rattle.std.specs.List.{list_any};
ghost use Rattle.std.specs.List.Sorted.{IsStrictlySortedBy};
ghost use Rattle.std.specs.Map.{keys_of};
ghost use Rattle.std.specs.Option.{option_copied};
ghost use Rattle.iocm_activate.specs.Cells.{cells_in};

use iocm_types::{TableKey, value_under};
use std::marker::Model;

/// The cells of one kind that a change wrote, each with its value after the change; none where
/// there is nothing any more. They are in the order of their keys, each once, and contracts see
/// them so. The word is own.
#[derive(Drop)]
pub struct Written<K: TableKey, V> {
    cells: Vec<(K, Option<V>)>,
}

impl<K: TableKey, V> Model for Written<K, V> {
    ghost use Rattle.std.specs.Prelude.{List, Option};
    ghost use Rattle.std.specs.Coded.{coded×, coded_list, coded_option};
    ghost use Rattle.std.specs.List.Sorted.{IsStrictlySortedBy};
    ghost use Rattle.std.specs.Map.{keys_of};

    ghost Value = { List (K × Option V) };

    ghost coded = { coded_list (coded× K.code (coded_option V.code)) };

    ghost view = { λ w. w.cells.items };

    ghost invariant = { λ w. IsStrictlySortedBy K.order (keys_of w.cells.items) };
}

impl<K: TableKey, V> Written<K, V> {
    /// These cells, which are in the order of their keys, each once.
    pub fn of(cells: Vec<(K, Option<V>)>) -> Self
        requires { IsStrictlySortedBy K.order (keys_of cells.items) }
        ensures { result ≡ cells.items }
    {
        Written { cells }
    }

    /// The cells in the order of their keys.
    pub fn cells(&self) -> &[(K, Option<V>)]
        ensures entries { result.now ≡ map.entries (cells_in K.order self.now) }
        ensures list { result.now ≡ self.now }
    {
        self.cells.as_slice()
    }
}

impl<K: TableKey + Copy + Drop, V> Written<K, V> {
    /// What there is at a cell after the change, if it is among these; it is found by binary search.
    pub fn get(&self, key: &K) -> Option<&Option<V>>
        ensures { option_copied result ≡ map.get (cells_in K.order self.now) key.now }
    {
        value_under(self.cells.as_slice(), key)
    }

    /// Whether a cell is among both. Each of the fewer ones is looked for among the others.
    pub fn have_common(&self, other: &Written<K, V>) -> bool
        ensures { result ≡ list_any (contains_key (cells_in K.order other.now)) (map.keys (cells_in K.order self.now)) }
    {
        if self.cells.len() <= other.cells.len() {
            return has_one_of(other, self);
        }
        has_one_of(self, other)
    }
}

/// Whether a cell of `others` is among those of `written`.
fn has_one_of<K: TableKey + Copy + Drop, V>(written: &Written<K, V>, others: &Written<K, V>) -> bool
    ensures { result ≡ list_any (contains_key (cells_in K.order written.now)) (map.keys (cells_in K.order others.now)) }
{
    for cell in others.cells() {
        if written.get(&cell.0).is_some() {
            return true;
        }
    }
    false
}
