ghost use Rattle.std.specs.Prelude.{◌≡◌, ℕ, true, false, Bool};
ghost use Rattle.std.specs.List.{list_any};
ghost use Rattle.std.specs.Option.{ForSome};
ghost use Rattle.iocm_model.specs.Machine.Record.{Rec, key_of};
ghost use Rattle.iocm_model.specs.Machine.Configuration.{Configuration, records_of};
ghost use Rattle.iocm_lookup.specs.First.{first_key};
ghost use Rattle.iocm_lookup.specs.Kinds as kinds;

use crate::kind::RecordKind;
use iocm_config::Config;
use iocm_record::Record;
use iocm_types::Key;
use std::alloc::Allocator;

/// What a walk over the records of one kind looks for, as those that break a rule.
pub trait Wanted<A: Allocator> {
    /// Which records of a configuration are looked for.
    ghost wants: { Self → Configuration → Rec → Bool };

    /// What holds of a configuration in which they are looked for.
    ghost fits: { Self → Configuration → Type 0 };

    /// The place of their kind in the order of keys.
    ghost place: { ℕ };

    /// The kind of the records that are looked for.
    fn kind(&self) -> RecordKind
        ensures { kinds.place_of result ≡ place };

    /// Whether a record of the configuration is one.
    fn is_wanted(&self, config: &Config<A>, entry: &Record<A>) -> bool
        requires { fits self.now config.now.records }
        ensures { result ≡ wants self.now config.now.records entry.now };

    /// Whether a record is known to be looked for exactly where another is, without a look into the
    /// configuration. Where it is not known the answer is no.
    fn is_like(&self, entry: &Record<A>, other: &Record<A>) -> bool
        ensures { (c : Configuration) → result ≡ true → wants self.now c entry.now ≡ wants self.now c other.now }
    {
        false
    }

    /// No record of another kind is looked for.
    ghost of_kind: { (s : Self) (c : Configuration) (r : Rec) → wants s c r ≡ true → kinds.kind_of (key_of r) ≡ place };
}

/// The key of the first record that is looked for, if there is one. The time is that of a walk over
/// the records of its kind; one that is known to be like the one before it isn't looked at again.
pub fn first_wanted<A: Allocator, W: Wanted<A>>(config: &Config<A>, wanted: &W) -> Option<Key>
    requires { W.fits wanted.now config.now.records }
    ensures { result ≡ first_key (W.wants wanted.now config.now.records) config.now.records }
{
    config.has_own_keys();
    let kind = wanted.kind();
    let mut last = None;
    for (key, entry) in config.walk_from(&kind.first()) {
        if kind.is_past(key) {
            return None;
        }
        if is_wanted_after(config, wanted, last, entry) {
            return Some(*key);
        }
        last = Some(entry);
    }
    None
}

/// Whether a record is looked for, where the last one, if there was one, is not.
fn is_wanted_after<A: Allocator, W: Wanted<A>>(
    config: &Config<A>,
    wanted: &W,
    last: Option<&Record<A>>,
    entry: &Record<A>,
) -> bool
    requires fits { W.fits wanted.now config.now.records }
    requires last { ForSome last (λ other. W.wants wanted.now config.now.records other.now ≡ false) }
    ensures { result ≡ W.wants wanted.now config.now.records entry.now }
{
    if let Some(other) = last {
        if wanted.is_like(entry, other) {
            return false;
        }
    }
    wanted.is_wanted(config, entry)
}

/// Whether there is a record that is looked for.
pub fn is_any_wanted<A: Allocator, W: Wanted<A>>(config: &Config<A>, wanted: &W) -> bool
    requires { W.fits wanted.now config.now.records }
    ensures { result ≡ list_any (W.wants wanted.now config.now.records) (records_of config.now.records) }
{
    first_wanted(config, wanted).is_some()
}
