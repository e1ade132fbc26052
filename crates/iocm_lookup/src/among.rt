ghost use Rattle.std.specs.Prelude.{◌≡◌, None};
ghost use Rattle.std.specs.Option.{option_map};
ghost use Rattle.std.specs.Ordering.{is_lt};
ghost use Rattle.iocm_types.specs.Key.{key_cmp};
ghost use Rattle.iocm_model.specs.Machine.Record.{key_of};
ghost use Rattle.iocm_model.specs.Machine.Configuration.{lookup_of, records_of};
ghost use Rattle.iocm_model.specs.Rules.FirstBreach.{first_record};
ghost use Rattle.iocm_lookup.specs.Among as among;

use crate::wanted::Wanted;
use iocm_config::Config;
use iocm_types::Key;
use std::alloc::Allocator;

/// The key of the first record that is looked for, if there is one, where no record at another key
/// than these can be. The keys come in any order, also several times, and one may have no record.
/// The time is that of one look at the record of each.
pub fn first_wanted_among<A: Allocator, W: Wanted<A>>(
    config: &Config<A>,
    wanted: &W,
    keys: &[Key],
) -> Option<Key>
    requires fits { W.fits wanted.now config.now.records }
    requires only { among.IsOnlyAt keys.now config.now.records (W.wants wanted.now config.now.records) }
    ensures { result ≡ option_map key_of (first_record (W.wants wanted.now config.now.records)
        (records_of config.now.records)) }
{
    config.has_own_keys();
    least_wanted(config, wanted, keys)
}

/// The least of some keys whose record is looked for.
#[tactic(auto, using(crate::proofs::Leasts::least_steps))]
fn least_wanted<A: Allocator, W: Wanted<A>>(
    config: &Config<A>,
    wanted: &W,
    keys: &[Key],
) -> Option<Key>
    requires { W.fits wanted.now config.now.records }
    ensures { result ≡ among.least_of (among.key_if (W.wants wanted.now config.now.records)
        (lookup_of config.now.records)) None keys.now }
{
    let mut least = None;
    for key in keys {
        least = lesser(least, key_if_wanted(config, wanted, key));
    }
    least
}

/// A key, if the record there is looked for.
fn key_if_wanted<A: Allocator, W: Wanted<A>>(
    config: &Config<A>,
    wanted: &W,
    key: &Key,
) -> Option<Key>
    requires { W.fits wanted.now config.now.records }
    ensures { result ≡ among.key_if (W.wants wanted.now config.now.records) (lookup_of config.now.records) key.now }
{
    if is_wanted_at(config, wanted, key) {
        Some(*key)
    } else {
        None
    }
}

/// Whether the record at a key is there, and is looked for.
pub fn is_wanted_at<A: Allocator, W: Wanted<A>>(config: &Config<A>, wanted: &W, key: &Key) -> bool
    requires { W.fits wanted.now config.now.records }
    ensures { result ≡ among.is_so_at (W.wants wanted.now config.now.records) (lookup_of config.now.records) key.now }
{
    match config.get(key) {
        Some(entry) => wanted.is_wanted(config, entry),
        None => false,
    }
}

/// The lesser of two keys, where both are there.
pub fn lesser(least: Option<Key>, other: Option<Key>) -> Option<Key>
    ensures { result ≡ among.lesser least other }
{
    let Some(key) = least else {
        return other;
    };
    let Some(found) = other else {
        return Some(key);
    };
    if is_before(&found, &key) {
        Some(found)
    } else {
        Some(key)
    }
}

pub(crate) fn is_before(key: &Key, other: &Key) -> bool
    ensures { result ≡ is_lt (key_cmp key.now other.now) }
{
    key.order(*other).is_lt()
}
