ghost use Rattle.std.specs.Prelude.{◌≡◌, ◌++◌, IfOk, OnOk};
ghost use Rattle.iocm_objects.specs.Objects as meaning;

use crate::field::Field;
use crate::fields::fields_in;
use crate::online::names_online;
use crate::told::{Told, told_of};
use iocm_config::Config;
use iocm_difference::{Merge, is_same_record};
use iocm_record::Record;
use iocm_types::{Key, List};
use std::alloc::{AllocError, Global};

/// What becomes of an object.
#[derive(Clone, Copy, PartialEq, Eq)]
pub enum Change {
    /// It is there after alone.
    Added,
    /// It is there before alone.
    Deleted,
    /// It is there before and after, and isn't the same.
    Changed,
}

/// An object that differs: any record but that of an online pair; to a path belong the images that are online at it.
#[derive(Drop)]
pub struct Object {
    /// The key of its record.
    pub key: Key,
    /// What becomes of it.
    pub change: Change,
    /// Its fields before; none where it isn't there.
    pub before: List<Field>,
    /// Its fields after; none where it isn't there.
    pub after: List<Field>,
    /// What is told of them, in order; nothing where no field differs.
    pub told: List<Told>,
}

/// The objects that differ between two configurations, in the order of keys. The time is that of one walk over both, of
/// looking each key up, and of a walk over the images online at each path.
///
/// `AllocError` (M1): memory ran out.
///
/// Promise: the objects of a plan are exactly the keys that differ, each with its fields before and after.
pub fn objects_of(alloc: Global, old: &Config, new: &Config) -> Result<Vec<Object>, AllocError>
    ensures { IfOk result (λ objects. objects.items ≡ meaning.objects old.now.records new.now.records) }
{
    let mut objects = Vec::new(alloc);
    let mut merge = Merge::new(old, new);
    while let Some(met) = merge.step() {
        put_object(&mut objects, alloc, old, new, met.key)?;
    }
    Ok(objects)
}

/// Puts the object under a key behind others, if it differs.
fn put_object(
    objects: &mut Vec<Object>,
    alloc: Global,
    old: &Config,
    new: &Config,
    key: &Key,
) -> Result<(), AllocError>
    ensures { OnOk result (objects.new.items
        ≡ objects.old.items ++ meaning.objects_at old.now.records new.now.records key.now) }
{
    let Some(change) = change_of(alloc, old, new, key)? else {
        return Ok(());
    };
    let before = fields_in(alloc, old, key)?;
    let after = fields_in(alloc, new, key)?;
    let told = told_of(alloc, change, before.as_slice(), after.as_slice())?;
    let key = *key;
    objects.push(Object {
        key,
        change,
        before,
        after,
        told,
    })?;
    Ok(())
}

/// What becomes of the object under a key, if it differs.
fn change_of(
    alloc: Global,
    old: &Config,
    new: &Config,
    key: &Key,
) -> Result<Option<Change>, AllocError>
    ensures { IfOk result (λ change. change ≡ meaning.change_of old.now.records new.now.records key.now) }
{
    if let Key::Online(_, _, _) = key {
        return Ok(None);
    }
    match (old.get(key), new.get(key)) {
        (Some(before), Some(after)) => {
            let same = is_same_object(alloc, old, new, key, before, after)?;
            Ok(if same { None } else { Some(Change::Changed) })
        }
        (None, Some(_)) => Ok(Some(Change::Added)),
        (Some(_), None) => Ok(Some(Change::Deleted)),
        (None, None) => Ok(None),
    }
}

/// Whether an object with these records before and after stays as it is.
fn is_same_object(
    alloc: Global,
    old: &Config,
    new: &Config,
    key: &Key,
    before: &Record,
    after: &Record,
) -> Result<bool, AllocError>
    ensures { IfOk result (λ same. same
        ≡ meaning.is_same before.now after.now old.now.records new.now.records key.now) }
{
    if !is_same_record(before, after) {
        return Ok(false);
    }
    let names = names_online(alloc, old, key)?;
    let others = names_online(alloc, new, key)?;
    Ok(names.as_slice() == others.as_slice())
}
