ghost use Rattle.std.specs.Prelude.{◌≡◌, ◌++◌, ◌∷◌, [], IfOk, OnOk};
ghost use Rattle.std.specs.FinMap.{remove};
ghost use Rattle.iocm_types.specs.Key.{key_cmp};
ghost use Rattle.iocm_types.specs.declared.key.Key as keys;
ghost use Rattle.iocm_table.specs.Slots.{rows};
ghost use Rattle.iocm_offon.specs.UnderKeys as meaning;

use crate::reason::Reason;
use iocm_table::Table;
use iocm_types::Key;
use std::alloc::{AllocError, Global};
use std::marker::Model;

/// The reasons of one object. Contracts see the list.
#[derive(Drop)]
pub struct Group {
    reasons: Vec<Reason>,
}

impl Model for Group {
    ghost use Rattle.std.specs.Prelude.{List};
    ghost use Rattle.iocm_offon.specs.declared.reason.Reason.{Reason};

    ghost Value = { List Reason };

    ghost view = { λ g. g.reasons.items };
}

impl Group {
    fn new(alloc: Global) -> Group
        ensures { result ≡ [] }
    {
        Group {
            reasons: Vec::new(alloc),
        }
    }

    fn as_slice(&self) -> &[Reason]
        ensures { result.now ≡ self.now }
    {
        self.reasons.as_slice()
    }
}

/// Reasons, each under the key of its object, in their order. The time is that of a search for each.
///
/// `AllocError` (M1): memory ran out.
pub fn by_object(alloc: Global, reasons: &[Reason]) -> Result<Table<Key, Group>, AllocError>
    ensures { IfOk result (λ table. (k : keys.Key) → meaning.under table k ≡ meaning.reasons_under k reasons.now) }
{
    let mut table = Table::new(alloc);
    for reason in reasons {
        put_under(&mut table, alloc, *reason)?;
    }
    Ok(table)
}

/// Puts a reason behind those of its object.
fn put_under(table: &mut Table<Key, Group>, alloc: Global, reason: Reason) -> Result<(), AllocError>
    ensures { OnOk result ((k : keys.Key)
        → meaning.under table.new k ≡ meaning.under table.old k ++ meaning.reasons_under k (reason ∷ [])) }
{
    let key = reason.object;
    let mut group = take_group(table, alloc, &key);
    group.reasons.push(reason)?;
    table.room(key)?;
    let _ = table.put(&key, group);
    Ok(())
}

/// Takes the reasons under a key out.
fn take_group(table: &mut Table<Key, Group>, alloc: Global, key: &Key) -> Group
    ensures group { result ≡ meaning.under table.old key.now }
    ensures rows { rows key_cmp table.new ≡ remove (rows key_cmp table.old) key.now }
{
    match table.take(key) {
        Some(group) => group,
        None => Group::new(alloc),
    }
}

/// The reasons under a key; none if there are none.
pub fn reasons_under<'a>(table: &'a Table<Key, Group>, key: &Key) -> &'a [Reason]
    ensures { result.now ≡ meaning.under table.entry.now key.entry.now }
{
    match table.get(key) {
        Some(group) => group.as_slice(),
        None => &[],
    }
}
