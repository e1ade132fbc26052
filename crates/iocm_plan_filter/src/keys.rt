ghost use Rattle.std.specs.Prelude.{◌≡◌, ◌||◌, OnOk};
ghost use Rattle.std.specs.Ordering.{eq_by_cmp};
ghost use Rattle.iocm_types.specs.Key.{key_cmp};
ghost use Rattle.iocm_types.specs.declared.key.Key as key_type;
ghost use Rattle.iocm_table.specs.Slots.{rows};
ghost use Rattle.iocm_filter.specs.Sieves.{has_key};
ghost use Rattle.iocm_plan_filter.specs.Connected.{is_among};

use iocm_table::Table;
use iocm_types::Key;
use std::alloc::AllocError;

/// Whether a key is among those of a table. The time is that of a search.
pub(crate) fn has_key(keys: &Table<Key, ()>, key: &Key) -> bool
    ensures { result ≡ has_key (rows key_cmp keys.now) key.now }
{
    keys.get(key).is_some()
}

/// Puts keys with others.
pub(crate) fn put_keys(keys: &mut Table<Key, ()>, more: &[Key]) -> Result<(), AllocError>
    ensures { OnOk result ((k : key_type.Key) → has_key (rows key_cmp keys.new) k
        ≡ (has_key (rows key_cmp keys.old) k || is_among k more.now)) }
{
    for key in more {
        put_key(keys, *key)?;
    }
    Ok(())
}

/// Puts a key with others.
#[tactic(auto, using(iocm_filter::proofs::Keys::with_key))]
fn put_key(keys: &mut Table<Key, ()>, key: Key) -> Result<(), AllocError>
    ensures { OnOk result ((k : key_type.Key) → has_key (rows key_cmp keys.new) k
        ≡ (has_key (rows key_cmp keys.old) k || eq_by_cmp key_cmp k key)) }
{
    keys.room(key)?;
    let _before = keys.put(&key, ());
    Ok(())
}
