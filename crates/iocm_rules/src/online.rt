ghost use Rattle.std.specs.Prelude.{◌≡◌, ◌||◌, Some, true};
ghost use Rattle.std.specs.Option.{ForSome};
ghost use Rattle.iocm_model.specs.Machine.Record as kinds;
ghost use Rattle.iocm_model.specs.Machine.Record.{online};
ghost use Rattle.iocm_model.specs.Machine.Sight as sight;
ghost use Rattle.iocm_model.specs.Rules.EachRule as model;
ghost use Rattle.iocm_record.specs.Meaning.{path_of};
ghost use Rattle.iocm_lookup.specs.There.{IsThere};
ghost use Rattle.iocm_rules.specs.Onlines as onlines;

use iocm_config::Config;
use iocm_lookup::{RecordKind, Wanted, WantedByNamed, get_after, is_online_before};
use iocm_record::{PathFields, Record, RecordBody};
use iocm_types::{Chpid, Css, Key, Name, PathKind};
use std::alloc::Allocator;

/// V4: the path of an online record isn't there, or neither of its lists has the name; or one image
/// uses the path at a time, and an online record with a smaller key has the same path.
#[derive(Drop)]
pub struct WrongOnline;

/// For the records at some keys.
impl<A: Allocator> Wanted<A> for WrongOnline {
    ghost use Rattle.std.specs.Prelude.{refl};
    ghost use Rattle.iocm_model.specs.Rules.EachRule.{breaks_v4};
    ghost use Rattle.iocm_lookup.specs.OfKind.{only_online};

    ghost wants = { λ s c r. breaks_v4 c r };

    ghost fits = { λ s c. Unit {0} };

    ghost place = { 7 };

    ghost of_kind = { λ s c. only_online (breaks_v4 c)
        (λ _. refl) (λ _. refl) (λ _. refl) (λ _. refl) (λ _. refl) (λ _. refl) (λ _. refl) };

    fn kind(&self) -> RecordKind {
        RecordKind::Online
    }

    fn is_wanted(&self, config: &Config<A>, entry: &Record<A>) -> bool {
        let mut last = None;
        is_wrong_record(config, &mut last, entry)
    }
}

/// For all online records: those of one path are neighbours.
impl<A: Allocator> WantedByNamed<A> for WrongOnline {
    ghost use Rattle.std.specs.Prelude.{refl};
    ghost use Rattle.iocm_model.specs.Rules.EachRule.{breaks_v4};
    ghost use Rattle.iocm_lookup.specs.OfKind.{only_online};

    ghost wants = { λ s c r. breaks_v4 c r };

    ghost place = { 7 };

    ghost of_kind = { λ s c. only_online (breaks_v4 c)
        (λ _. refl) (λ _. refl) (λ _. refl) (λ _. refl) (λ _. refl) (λ _. refl) (λ _. refl) };

    fn kind(&self) -> RecordKind {
        RecordKind::Online
    }

    fn is_wanted<'a>(
        &self,
        config: &'a Config<A>,
        last: &mut Option<&'a Record<A>>,
        entry: &Record<A>,
    ) -> bool {
        is_wrong_record(config, last, entry)
    }
}

/// Whether a record is an online record that breaks V4.
fn is_wrong_record<'a, A: Allocator>(
    config: &'a Config<A>,
    last: &mut Option<&'a Record<A>>,
    entry: &Record<A>,
) -> bool
    requires { ForSome last.old (λ r. IsThere config.now.records r.now) }
    ensures wrong { result ≡ model.breaks_v4 config.now.records entry.now }
    ensures last { ForSome last.new (λ r. IsThere config.now.records r.now) }
{
    match entry.body() {
        RecordBody::Online(css, path, name) => is_wrong(config, last, *css, *path, *name),
        _ => false,
    }
}

/// Whether an online record breaks V4.
fn is_wrong<'a, A: Allocator>(
    config: &'a Config<A>,
    last: &mut Option<&'a Record<A>>,
    css: Css,
    path: Chpid,
    name: Name,
) -> bool
    requires { ForSome last.old (λ r. IsThere config.now.records r.now) }
    ensures wrong { result
        ≡ model.breaks_v4 config.now.records (online (record { css = css; path = path; name = name })) }
    ensures last { ForSome last.new (λ r. IsThere config.now.records r.now) }
{
    let Some(entry) = get_after(config, last, &Key::Path(css, path)) else {
        return true;
    };
    match entry.body() {
        RecordBody::Path(fields) => is_wrong_on(config, fields, css, path, name),
        _ => true,
    }
}

/// Whether an online record breaks V4, where its path has these fields.
fn is_wrong_on<A: Allocator>(
    config: &Config<A>,
    fields: &PathFields<A>,
    css: Css,
    path: Chpid,
    name: Name,
) -> bool
    ensures { result ≡ onlines.is_wrong_on config.now.records (record { css = css; path = path; name = name })
        (Some (kinds.path (path_of fields.now))) }
{
    !lists_name(fields, name)
        || (is_exclusive(fields.kind) && is_online_before(config, css, path, name))
}

/// Whether one image uses a path of this kind at a time.
fn is_exclusive(kind: PathKind) -> bool
    ensures { result ≡ model.is_exclusive_kind kind }
{
    match kind {
        PathKind::Dedicated => true,
        PathKind::Reconfigurable => true,
        PathKind::Shared => false,
    }
}

/// Whether a path has a name in its access or its candidate list.
fn lists_name<A: Allocator>(fields: &PathFields<A>, name: Name) -> bool
    ensures { result ≡ (sight.has_name name fields.now.access || sight.has_name name fields.now.candidates) }
{
    has_name(fields.access.as_slice(), name) || has_name(fields.candidates.as_slice(), name)
}

/// Whether a list has a name. Lists are in ascending order as a rule, and in such a list a search by
/// halves meets the name. Else it is looked for from the first on.
fn has_name(names: &[Name], name: Name) -> bool
    ensures { result ≡ sight.has_name name names.now }
{
    let near = names.binary_search(&name).unwrap_or(0);
    is_at(names, name, near) || names.iter().any(|other| name == *other)
}

/// Whether a name stands at a place of a list.
fn is_at(names: &[Name], name: Name, place: usize) -> bool
    ensures { result ≡ true → sight.has_name name names.now ≡ true }
{
    match names.get(place) {
        Some(other) => name == *other,
        None => false,
    }
}
