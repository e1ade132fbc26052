ghost use Rattle.std.specs.Prelude.{◌≡◌, IfOk};
ghost use Rattle.std.specs.FinMap.{find};
ghost use Rattle.std.specs.List.{list_any};
ghost use Rattle.std.specs.List.Sorted.{IsStrictlySortedBy};
ghost use Rattle.std.specs.Map.{keys_of};
ghost use Rattle.std.specs.Ordering.{eq_by_cmp};

use crate::TableKey;
use std::alloc::{AllocError, Allocator};

/// The same keys in order, each once. The time is that of sorting them.
///
/// `AllocError` (M1): memory ran out.
pub fn sorted_once<K: TableKey + Drop, A: Allocator>(
    mut keys: Vec<K, A>,
) -> Result<Vec<K, A>, AllocError>
    ensures order { IfOk result (λ once. IsStrictlySortedBy K.order once.items) }
    ensures same { IfOk result (λ once. (k : K)
        → list_any (eq_by_cmp K.order k) once.items ≡ list_any (eq_by_cmp K.order k) keys.items) }
{
    keys.sort()?;
    keys.dedup();
    Ok(keys)
}

/// The rows in the order of their keys, of each key the one that was listed first. A stable sort
/// leaves rows of one key as they were listed. Rows that are in order are only looked through.
///
/// `AllocError` (M1): memory ran out.
pub fn first_in_order<K: TableKey + Drop, V: Drop, A: Allocator>(
    rows: Vec<(K, V), A>,
) -> Result<Vec<(K, V), A>, AllocError>
    ensures first { IfOk result (λ once. (k : K) → find K.order k once.items ≡ find K.order k rows.items) }
    ensures order { IfOk result (λ once. IsStrictlySortedBy K.order (keys_of once.items)) }
{
    let mut once = rows;
    once.sort_by(|row, other| row.0.cmp(&other.0))?;
    once.dedup_by(|row, kept| row.0.cmp(&kept.0).is_eq());
    Ok(once)
}
