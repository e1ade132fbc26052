ghost use Rattle.std.specs.Prelude.{◌≡◌, Some, None};
ghost use Rattle.std.specs.FinMap.{get, insert, remove};
ghost use Rattle.iocm_types.specs.Key.{key_cmp};
ghost use Rattle.iocm_model.specs.Machine.Record.{key_of};
ghost use Rattle.iocm_model.specs.Change.Edit.{action_key, config_after, record_after};
ghost use Rattle.iocm_model.specs.Change.Inverse.{action_back};
ghost use Rattle.iocm_lookup.specs.Indexed.{IsIndexOf};
ghost use Rattle.iocm_tree.specs.Carried.{action_of};
ghost use Rattle.iocm_plant.specs.Alike.{IsPutAlike};
ghost use Rattle.iocm_plant.specs.Operating.{HasPlaceIn, HasNamingRoom};
ghost use Rattle.iocm_plant.specs.declared.alike.Likeness.TheVariants.{Alike};

use crate::alike::{Likeness, likeness_of};
use iocm_config::Config;
use iocm_index::Index;
use iocm_record::Record;
use iocm_tree::Action;
use iocm_types::Key;

/// Performs an action on the configuration and on the index of who names whom, and gives the action
/// that takes it back, with the record that was there. Can't run out of memory: there are
/// places for the key and for what the record names.
pub fn exchange_record(config: &mut Config, index: &mut Index, action: Action) -> Action
    requires index { IsIndexOf config.old.records index.old }
    requires key { HasPlaceIn key_cmp config.old.places (action_key (action_of action)) }
    requires namings { HasNamingRoom index.old.places (record_after (action_of action)) }
    ensures config { config.new.records ≡ config_after (action_of action) config.old.records }
    ensures index { IsIndexOf config.new.records index.new }
    ensures back { action_of result ≡ action_back (action_key (action_of action))
        (get config.old.records (action_key (action_of action))) (record_after (action_of action)) }
    ensures keys { config.new.places ≡ config.old.places }
    ensures namings { index.new.places ≡ index.old.places }
{
    let likeness = likeness_of(config.get(&action.key()), action.after());
    exchange_known(config, index, action, likeness)
}

/// Does the same where it is known how the record that comes stands to the one that was there. The
/// index isn't touched where they name the same things.
pub fn exchange_known(
    config: &mut Config,
    index: &mut Index,
    action: Action,
    likeness: Likeness,
) -> Action
    requires index { IsIndexOf config.old.records index.old }
    requires alike { likeness ≡ Alike → IsPutAlike
        (get config.old.records (action_key (action_of action))) (record_after (action_of action)) }
    requires key { HasPlaceIn key_cmp config.old.places (action_key (action_of action)) }
    requires namings { HasNamingRoom index.old.places (record_after (action_of action)) }
    ensures config { config.new.records ≡ config_after (action_of action) config.old.records }
    ensures index { IsIndexOf config.new.records index.new }
    ensures back { action_of result ≡ action_back (action_key (action_of action))
        (get config.old.records (action_key (action_of action))) (record_after (action_of action)) }
    ensures keys { config.new.places ≡ config.old.places }
    ensures namings { index.new.places ≡ index.old.places }
{
    match action {
        Action::Add(entry) => put_record(config, index, entry, likeness),
        Action::Delete(key) => take_record(config, index, key),
        Action::Modify(entry) => put_record(config, index, entry, likeness),
    }
}

/// Puts a record in under its key, and gives the action that takes it out again or puts back the
/// one that was there.
fn put_record(config: &mut Config, index: &mut Index, entry: Record, likeness: Likeness) -> Action
    requires index { IsIndexOf config.old.records index.old }
    requires alike { likeness ≡ Alike → IsPutAlike (get config.old.records (key_of entry)) (Some entry) }
    requires key { HasPlaceIn key_cmp config.old.places (key_of entry) }
    requires namings { HasNamingRoom index.old.places (Some entry) }
    ensures config { config.new.records ≡ insert config.old.records (key_of entry) entry }
    ensures index { IsIndexOf config.new.records index.new }
    ensures back { action_of result ≡ action_back (key_of entry) (get config.old.records (key_of entry)) (Some entry) }
    ensures keys { config.new.places ≡ config.old.places }
    ensures namings { index.new.places ≡ index.old.places }
{
    let key = entry.key();
    relink_record(config, index, &entry, likeness);
    match config.put(entry) {
        Some(old) => Action::Modify(old),
        None => Action::Delete(key),
    }
}

/// Takes what the record of a key names out of the index, if there is one, and puts in what its new
/// record names. Where a device comes in the place of one that names the same things, nothing is to
/// be done.
fn relink_record(config: &Config, index: &mut Index, entry: &Record, likeness: Likeness)
    requires index { IsIndexOf config.now.records index.old }
    requires alike { likeness ≡ Alike → IsPutAlike (get config.now.records (key_of entry.now)) (Some entry.now) }
    requires namings { HasNamingRoom index.old.places (Some entry.now) }
    ensures index { IsIndexOf (insert config.now.records (key_of entry.now) entry.now) index.new }
    ensures namings { index.new.places ≡ index.old.places }
{
    if let Likeness::Alike = likeness {
        return;
    }
    let key = entry.key();
    unlink_record(config, index, &key);
    index.link(entry);
}

/// Takes the record of a key out, if there is one, and gives the action that puts it back.
fn take_record(config: &mut Config, index: &mut Index, key: Key) -> Action
    requires index { IsIndexOf config.old.records index.old }
    ensures config { config.new.records ≡ remove config.old.records key }
    ensures index { IsIndexOf config.new.records index.new }
    ensures back { action_of result ≡ action_back key (get config.old.records key) None }
    ensures keys { config.new.places ≡ config.old.places }
    ensures namings { index.new.places ≡ index.old.places }
{
    unlink_record(config, index, &key);
    match config.take(&key) {
        Some(old) => Action::Add(old),
        None => Action::Delete(key),
    }
}

/// Takes what the record of a key names out of the index, if there is one.
fn unlink_record(config: &Config, index: &mut Index, key: &Key)
    requires { IsIndexOf config.now.records index.old }
    ensures index { IsIndexOf (remove config.now.records key.now) index.new }
    ensures namings { index.new.places ≡ index.old.places }
{
    // For the proof alone: the record stands under its own key.
    config.has_own_keys();
    if let Some(entry) = config.get(key) {
        index.unlink(entry);
    }
}

/// Changes the record of a key back, by the action that changing it gave. Can't run out of
/// memory.
pub fn change_back(config: &mut Config, index: &mut Index, back: Action)
    requires index { IsIndexOf config.old.records index.old }
    requires key { HasPlaceIn key_cmp config.old.places (action_key (action_of back)) }
    requires namings { HasNamingRoom index.old.places (record_after (action_of back)) }
    ensures config { config.new.records ≡ config_after (action_of back) config.old.records }
    ensures index { IsIndexOf config.new.records index.new }
    ensures keys { config.new.places ≡ config.old.places }
    ensures namings { index.new.places ≡ index.old.places }
{
    let _ = exchange_record(config, index, back);
}
