ghost use Rattle.std.specs.Prelude.{◌≡◌, T};
ghost use Rattle.std.specs.FinMap.{from_sorted, get, is_sorted};
ghost use Rattle.std.specs.Option.{option_copied};

use crate::TableKey;

/// The value under a key among rows in the order of their keys, each key once; none where no row
/// has it. It is found by binary search.
pub fn value_under<'a, K: TableKey + Copy + Drop, V>(rows: &'a [(K, V)], key: &K) -> Option<&'a V>
    requires { T (is_sorted K.order rows.now) }
    ensures { option_copied result ≡ get (from_sorted {R = K.order} rows.now) key.now }
{
    match rows.binary_search_by_key(key, |row| row.0) {
        Ok(place) => Some(&rows[place].1),
        Err(_place) => None,
    }
}
