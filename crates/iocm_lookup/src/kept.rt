ghost use Rattle.std.specs.Prelude.{◌≡◌, ℕ, true, Bool};
ghost use Rattle.std.specs.Option.{ForSome, option_copied};
ghost use Rattle.iocm_model.specs.Machine.Record.{Rec, key_of};
ghost use Rattle.iocm_model.specs.Machine.Configuration.{Configuration, lookup_of};
ghost use Rattle.iocm_lookup.specs.First.{first_key};
ghost use Rattle.iocm_lookup.specs.Kinds as kinds;
ghost use Rattle.iocm_lookup.specs.There.{IsThere};

use crate::kind::RecordKind;
use iocm_config::Config;
use iocm_record::Record;
use iocm_types::Key;
use std::alloc::Allocator;

/// What a walk over the records of one kind finds, as a `Wanted`, where a record is judged by others
/// that it names, and neighbours mostly name the same. So the walk keeps the one that was found last.
pub trait WantedByNamed<A: Allocator> {
    /// Which records of a configuration are to be found.
    ghost wants: { Self → Configuration → Rec → Bool };

    /// The place of their kind in the order of keys.
    ghost place: { ℕ };

    /// The kind of the records that are to be found.
    fn kind(&self) -> RecordKind
        ensures { kinds.place_of result ≡ place };

    /// Whether a record of the configuration is one. The last record that was found comes along, as
    /// `get_after` keeps it.
    fn is_wanted<'a>(
        &self,
        config: &'a Config<A>,
        last: &mut Option<&'a Record<A>>,
        entry: &Record<A>,
    ) -> bool
        requires { ForSome last.old (λ r. IsThere config.now.records r.now) }
        ensures wanted { result ≡ wants self.now config.now.records entry.now }
        ensures last { ForSome last.new (λ r. IsThere config.now.records r.now) };

    /// No record of another kind is one.
    ghost of_kind: { (s : Self) (c : Configuration) (r : Rec) → wants s c r ≡ true → kinds.kind_of (key_of r) ≡ place };
}

/// The record at a key, if there is one: without a search where the last one that was found has this
/// key. What is found is the last one from now on.
pub fn get_after<'a, A: Allocator>(
    config: &'a Config<A>,
    last: &mut Option<&'a Record<A>>,
    key: &Key,
) -> Option<&'a Record<A>>
    requires { ForSome last.old (λ r. IsThere config.now.records r.now) }
    ensures found { option_copied result ≡ lookup_of config.now.records key.now }
    ensures last { ForSome last.new (λ r. IsThere config.now.records r.now) }
{
    config.has_own_keys();
    if let Some(entry) = *last {
        if entry.key() == *key {
            return Some(entry);
        }
    }
    let found = config.get(key);
    *last = found;
    found
}

/// The key of the first record that is to be found, if there is one. The time is that of a walk over
/// the records of its kind, and of a search where a record names another than the one before.
pub fn first_wanted_by_named<A: Allocator, W: WantedByNamed<A>>(
    config: &Config<A>,
    wanted: &W,
) -> Option<Key>
    ensures { result ≡ first_key (W.wants wanted.now config.now.records) config.now.records }
{
    config.has_own_keys();
    let kind = wanted.kind();
    let mut last = None;
    for (key, entry) in config.walk_from(&kind.first()) {
        if kind.is_past(key) {
            return None;
        }
        if wanted.is_wanted(config, &mut last, entry) {
            return Some(*key);
        }
    }
    None
}
