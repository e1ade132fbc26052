ghost use Rattle.std.specs.Prelude.{◌≡◌, ◌==◌, ◌&&◌, None, Some};
ghost use Rattle.std.specs.List.{list_any};
ghost use Rattle.std.specs.Ordering.{is_lt};
ghost use Rattle.iocm_types.specs.declared.key.Key.TheVariants as key;
ghost use Rattle.iocm_types.specs.Key.{key_cmp};
ghost use Rattle.iocm_types.specs.Naming.{naming_cmp};
ghost use Rattle.iocm_table.specs.Slots.{rows};
ghost use Rattle.iocm_model.specs.Machine.Configuration.{lookup_of, records_of};
ghost use Rattle.iocm_model.specs.Machine.Record.{unit};
ghost use Rattle.iocm_model.specs.Rules.EachRule as model;
ghost use Rattle.iocm_model.specs.Rules.EachRule.{breaks_v5, breaks_v14};
ghost use Rattle.iocm_model.specs.Rules.FirstBreach.{first_record};
ghost use Rattle.iocm_record.specs.Meaning.{unit_of};
ghost use Rattle.iocm_lookup.specs.Among.{least_of};
ghost use Rattle.iocm_lookup.specs.First.{first_key};
ghost use Rattle.iocm_lookup.specs.Indexed.{IsIndexOf};
ghost use Rattle.iocm_unit_rules.specs.Links as links;
ghost use Rattle.iocm_unit_rules.specs.Sharing as sharing;

use crate::links::{is_on_one_link, shares_link};
use crate::ranges::overlaps_any;
use iocm_config::Config;
use iocm_index::Index;
use iocm_lookup::{Addressed, first_repeated, lesser};
use iocm_record::{PathFields, Record, RecordBody, UnitFields};
use iocm_types::{CssPath, Key, Named, UnitRange};
use std::alloc::Allocator;

/// V14: a unit with a smaller key shares a path on which both have the same link, where none equals
/// none, has the same CUADD, where an absent one equals 00, and has a range that overlaps one of
/// it. So no address on a link is that of two units.
///
/// The key of the first unit that breaks it, if one does; V5 is kept, so each path that a unit names
/// is there. It goes path by path: of a path's units in order the first that shares an address with
/// one before it is the least that breaks the rule there. The answer is the least of all paths'. A
/// unit is compared with those before it on a path only where one of them has its CUADD.
pub fn first_shared_address<A: Allocator, I: Allocator>(
    config: &Config<A>,
    index: &Index<I>,
) -> Option<Key>
    requires index { IsIndexOf config.now.records index.now }
    requires paths { first_record (breaks_v5 config.now.records) (records_of config.now.records) ≡ None }
    ensures { result ≡ first_key (breaks_v14 config.now.records) config.now.records }
{
    config.has_own_keys();
    least_shared(config, index)
}

/// The least of the units that share, on one of their paths, an address with one before them.
fn least_shared<A: Allocator, I: Allocator>(config: &Config<A>, index: &Index<I>) -> Option<Key>
    ensures { result ≡ least_of (sharing.shared_of (lookup_of config.now.records) (rows naming_cmp index.now)) None
        (records_of config.now.records) }
{
    let mut least = None;
    for (_, entry) in config.walk() {
        least = lesser(least, shared_of(config, index, entry));
    }
    least
}

/// Of a path's units the first that shares an address with one before it; of other records none.
fn shared_of<A: Allocator, I: Allocator>(
    config: &Config<A>,
    index: &Index<I>,
    entry: &Record<A>,
) -> Option<Key>
    ensures { result ≡ sharing.shared_of (lookup_of config.now.records) (rows naming_cmp index.now) entry.now }
{
    match entry.body() {
        RecordBody::Path(fields) => first_shared(config, index, own_path(fields)),
        _ => None,
    }
}

/// A path with its channel subsystem.
fn own_path<A: Allocator>(fields: &PathFields<A>) -> CssPath
    ensures { result ≡ record { css = fields.now.css; path = fields.now.number } }
{
    CssPath {
        css: fields.css,
        path: fields.number,
    }
}

/// Of the units on a path, in order, the first that shares an address with one before it.
fn first_shared<A: Allocator, I: Allocator>(
    config: &Config<A>,
    index: &Index<I>,
    path: CssPath,
) -> Option<Key>
    ensures { result ≡ sharing.shared_on (lookup_of config.now.records) (rows naming_cmp index.now) path }
{
    first_repeated(
        config,
        index,
        Named::Record(Key::Path(path.css, path.path)),
        &SharedCuadd { index, path },
    )
}

/// The CUADD of the units on a path; of these are looked for those that share an address with one
/// before them.
#[derive(Drop)]
struct SharedCuadd<'a, I: Allocator> {
    index: &'a Index<I>,
    path: CssPath,
}

impl<'a, A: Allocator, I: Allocator> Addressed<A> for SharedCuadd<'a, I> {
    ghost use Rattle.iocm_types.specs.Naming.{naming_cmp};
    ghost use Rattle.iocm_table.specs.Slots.{rows};
    ghost use Rattle.iocm_model.specs.Machine.Configuration.{lookup_of};
    ghost use Rattle.iocm_unit_rules.specs.Sharing.{cuadd_of, shares_on};

    ghost address_of = { λ s. cuadd_of };

    ghost wants = { λ s c. shares_on (lookup_of c) (rows naming_cmp s.index.now) s.path };

    fn address(&self, entry: &Record<A>) -> Option<u8> {
        match entry.body() {
            RecordBody::Unit(fields) => Some(cuadd_or_zero(fields)),
            _ => None,
        }
    }

    fn is_wanted(&self, config: &Config<A>, entry: &Record<A>) -> bool {
        match entry.body() {
            RecordBody::Unit(fields) => is_shared_on(config, self.index, fields, self.path),
            _ => false,
        }
    }
}

/// Whether on a path a unit with a smaller key answers to one of a unit's addresses, on the link that
/// the path has there. The users come in order, so those behind the unit are not looked at.
pub fn is_shared_on<A: Allocator, I: Allocator>(
    config: &Config<A>,
    index: &Index<I>,
    fields: &UnitFields<A>,
    path: CssPath,
) -> bool
    ensures { result ≡ sharing.clashes_on (lookup_of config.now.records) (rows naming_cmp index.now)
        (unit_of fields.now) path }
{
    for user in index.users_of(Named::Record(Key::Path(path.css, path.path))) {
        if let Some(answer) = told_by(config, &path, fields, &user) {
            return answer;
        }
    }
    false
}

/// What a user of a path says of itself and of those behind it: whether one is before a unit and
/// answers to one of its addresses. One that isn't before the unit says no, one that answers yes, and
/// others say nothing.
fn told_by<A: Allocator>(
    config: &Config<A>,
    path: &CssPath,
    fields: &UnitFields<A>,
    user: &Key,
) -> Option<bool>
    ensures { result ≡ sharing.told_by (lookup_of config.now.records) (unit_of fields.now) path.now user.now }
{
    if !is_before(user, fields) {
        return Some(false);
    }
    if clashes(config, path, fields, user) {
        Some(true)
    } else {
        None
    }
}

/// Whether a key is less than that of a unit.
fn is_before<A: Allocator>(user: &Key, fields: &UnitFields<A>) -> bool
    ensures { result ≡ is_lt (key_cmp user.now (key.Unit fields.now.number)) }
{
    user.order(Key::Unit(fields.number)).is_lt()
}

/// Whether a key is that of a unit that answers to one of a unit's addresses, on the link of a path.
fn clashes<A: Allocator>(
    config: &Config<A>,
    path: &CssPath,
    fields: &UnitFields<A>,
    user: &Key,
) -> bool
    ensures { result ≡ sharing.clashes path.now (unit_of fields.now) (lookup_of config.now.records user.now) }
{
    match config.get(user) {
        Some(entry) => record_clashes(path, fields, entry),
        None => false,
    }
}

/// Whether a record is that of a unit that answers to one of a unit's addresses, on the link of a
/// path.
fn record_clashes<A: Allocator>(path: &CssPath, fields: &UnitFields<A>, entry: &Record<A>) -> bool
    ensures { result ≡ sharing.clashes path.now (unit_of fields.now) (Some entry.now) }
{
    match entry.body() {
        RecordBody::Unit(other) => answers_for(path, fields, other),
        _ => false,
    }
}

/// Whether a unit answers to one of another's addresses, on the link of a path. The links are looked
/// at last.
fn answers_for<A: Allocator>(path: &CssPath, fields: &UnitFields<A>, other: &UnitFields<A>) -> bool
    ensures { result ≡ sharing.clashes path.now (unit_of fields.now) (Some (unit (unit_of other.now))) }
{
    answers_on_one_link(fields, other) && shares_links(path, fields, other)
}

/// Whether two units have a path with the same link. Then they share a link, as the rule has it, so the
/// second test is made once at the most.
fn shares_links<A: Allocator>(path: &CssPath, fields: &UnitFields<A>, other: &UnitFields<A>) -> bool
    ensures { result ≡ (links.share_link_on path.now.css path.now.path (unit_of fields.now) (unit_of other.now)
        && model.share_link (unit_of fields.now) (unit_of other.now)) }
{
    is_on_one_link(path, fields, other) && shares_link(fields, other)
}

/// Whether two units have the same CUADD, and ranges that overlap.
fn answers_on_one_link<A: Allocator>(fields: &UnitFields<A>, other: &UnitFields<A>) -> bool
    ensures { result ≡ ((model.cuadd_or_zero (unit_of fields.now) == model.cuadd_or_zero (unit_of other.now))
        && list_any (λ r. list_any (model.overlap r) other.now.ranges) fields.now.ranges) }
{
    cuadd_or_zero(fields) == cuadd_or_zero(other)
        && any_overlap(fields.ranges.as_slice(), other.ranges.as_slice())
}

/// The address of a unit; absent is 00.
pub(crate) fn cuadd_or_zero<A: Allocator>(fields: &UnitFields<A>) -> u8
    ensures { result ≡ model.cuadd_or_zero (unit_of fields.now) }
{
    fields.cuadd.unwrap_or(0)
}

/// Whether one of these ranges overlaps one of the others.
#[tactic(auto, using(iocm_types::proofs::Any::any_steps))]
fn any_overlap(ranges: &[UnitRange], others: &[UnitRange]) -> bool
    ensures { result ≡ list_any (λ r. list_any (model.overlap r) others.now) ranges.now }
{
    for range in ranges {
        if overlaps_any(*range, others) {
            return true;
        }
    }
    false
}
