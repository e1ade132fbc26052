ghost use Rattle.std.specs.Prelude.{◌≡◌, ◌++◌, ◌&&◌, IfOk, OnOk, Some, filter, map, not};
ghost use Rattle.std.specs.List.{flat_map};
ghost use Rattle.std.specs.FinMap.{contains_key, empty, keys};
ghost use Rattle.iocm_types.specs.Key.{key_cmp};
ghost use Rattle.iocm_table.specs.Slots.{rows};
ghost use Rattle.iocm_model.specs.Machine.Configuration.{records_of};
ghost use Rattle.iocm_model.specs.Machine.Record.{key_of};
ghost use Rattle.iocm_record.specs.Meaning.{path_of};
ghost use Rattle.iocm_config.specs.OnlineLast as online;
ghost use Rattle.iocm_reports.specs.Deck as meaning;
ghost use Rattle.iocm_reports.specs.Gathered.{pair_of, with_pairs};

use crate::memory::Allocated;
use crate::remarks::put_line;
use iocm_config::Config;
use iocm_deck_writer::canonical_deck;
use iocm_record::{PathFields, Record, RecordBody};
use iocm_table::Table;
use iocm_types::{Key, Name, sorted_once};
use std::alloc::Global;
use std::fmt;

/// The canonical deck of a configuration. Behind it stands in comments, by key, what the deck
/// doesn't say of online paths: that one isn't online to an image of its access list, or is online
/// to another image.
///
/// `AllocError` (M1): memory ran out.
pub fn deck_text(alloc: Global, config: &Config) -> Allocated<Vec<u8>>
    ensures { IfOk result (λ bytes. bytes.items ≡ meaning.deck_text config.now.records) }
{
    let mut text = canonical_deck(alloc, config)?;
    let untold = pairs_untold(alloc, config)?;
    put_remarks(alloc, config, untold.as_slice(), &mut text)?;
    Ok(text)
}

/// The pairs of a path and an image of which the canonical deck says otherwise, in order.
fn pairs_untold(alloc: Global, config: &Config) -> Allocated<Vec<Key>>
    ensures { IfOk result (λ untold. untold.items ≡ meaning.pairs_untold config.now.records) }
{
    let listed = pairs_listed(alloc, config)?;
    let mut untold = Vec::new(alloc);
    add_offline(&listed, config, &mut untold)?;
    add_unlisted(&listed, config, &mut untold)?;
    sorted_once(untold)
}

/// The pairs of which access lists say that they are online.
fn pairs_listed(alloc: Global, config: &Config) -> Allocated<Table<Key, ()>>
    ensures { IfOk result
        (λ listed. rows key_cmp listed ≡ with_pairs empty (meaning.pairs_listed (records_of config.now.records))) }
{
    let mut listed = Table::new(alloc);
    for (_, entry) in config.walk() {
        list_pairs(&mut listed, entry)?;
    }
    Ok(listed)
}

/// Adds the pairs of a record's access list, if it has one.
fn list_pairs(listed: &mut Table<Key, ()>, entry: &Record) -> Allocated<()>
    ensures { OnOk result
        (rows key_cmp listed.new ≡ with_pairs (rows key_cmp listed.old) (map key_of (meaning.online_by entry.now))) }
{
    match entry.body() {
        RecordBody::Path(path) => list_images(listed, path),
        _ => Ok(()),
    }
}

/// Adds the pairs of a path's access list.
fn list_images(listed: &mut Table<Key, ()>, path: &PathFields) -> Allocated<()>
    ensures { OnOk result (rows key_cmp listed.new
        ≡ with_pairs (rows key_cmp listed.old) (map (pair_of (path_of path.now)) (path_of path.now).access)) }
{
    for name in path.access.as_slice() {
        let pair = Key::Online(path.css, path.number, *name);
        listed.room(pair)?;
        let _before = listed.put(&pair, ());
    }
    Ok(())
}

/// Lists the pairs of access lists that aren't online, behind those that are listed.
fn add_offline(listed: &Table<Key, ()>, config: &Config, untold: &mut Vec<Key>) -> Allocated<()>
    ensures { OnOk result (untold.new.items ≡ untold.old.items
        ++ filter (λ pair. not (contains_key config.now.records pair)) (keys (rows key_cmp listed.now))) }
{
    for (pair, _) in listed.walk() {
        if config.get(pair).is_none() {
            untold.push(*pair)?;
        }
    }
    Ok(())
}

/// Lists the pairs that are online and in no access list, behind those that are listed.
fn add_unlisted(listed: &Table<Key, ()>, config: &Config, untold: &mut Vec<Key>) -> Allocated<()>
    ensures { OnOk result (untold.new.items ≡ untold.old.items
        ++ filter (λ pair. online.is_online pair && not (contains_key (rows key_cmp listed.now) pair))
        (keys config.now.records)) }
{
    for (key, _) in config.walk() {
        if is_online(key) && listed.get(key).is_none() {
            untold.push(*key)?;
        }
    }
    Ok(())
}

/// Whether a key is that of a pair.
fn is_online(key: &Key) -> bool
    ensures { result ≡ online.is_online key.now }
{
    matches!(key, Key::Online(_, _, _))
}

/// Puts a comment on each of some pairs behind a text.
fn put_remarks(alloc: Global, config: &Config, untold: &[Key], text: &mut Vec<u8>) -> Allocated<()>
    ensures { OnOk result
        (text.new.items ≡ text.old.items ++ flat_map (meaning.remark_line config.now.records) untold.now) }
{
    for pair in untold {
        put_remark(alloc, config, pair, text)?;
    }
    Ok(())
}

/// Puts a comment on a pair behind a text.
#[tactic(auto, unfolding(crate::specs::Deck::remark_line))]
fn put_remark(alloc: Global, config: &Config, pair: &Key, text: &mut Vec<u8>) -> Allocated<()>
    ensures { OnOk result (text.new.items ≡ text.old.items ++ meaning.remark_line config.now.records pair.now) }
{
    match pair {
        Key::Online(css, number, name) => {
            let remark = Remark {
                path: Key::Path(*css, *number),
                is_online: config.get(pair).is_some(),
                name: *name,
            };
            put_line(alloc, remark, text)
        }
        _ => Ok(()),
    }
}

/// The comment on a path and an image as it is printed.
#[derive(Clone, Copy)]
struct Remark {
    path: Key,
    is_online: bool,
    name: Name,
}

impl fmt::Display for Remark {
    ghost output = { λ r. Some (meaning.remark_text r.path r.is_online r.name) };

    fn fmt<W: fmt::Write>(&self, f: &mut fmt::Formatter<W>) -> fmt::Result {
        let path = self.path;
        let is = IsOrNot(self.is_online);
        let name = self.name;
        write!(f, "* {path} {is} online to {name}")
    }
}

/// Whether something is so, as it is printed.
#[derive(Clone, Copy)]
struct IsOrNot(bool);

impl fmt::Display for IsOrNot {
    ghost output = { λ i. Some (meaning.is_or_not i.0) };

    fn fmt<W: fmt::Write>(&self, f: &mut fmt::Formatter<W>) -> fmt::Result {
        if self.0 {
            f.write_str("is")
        } else {
            f.write_str("isn't")
        }
    }
}
