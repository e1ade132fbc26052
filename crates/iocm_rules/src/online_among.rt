ghost use Rattle.std.specs.Prelude.{◌≡◌, None};
ghost use Rattle.iocm_types.specs.declared.key.Key.TheVariants as key;
ghost use Rattle.iocm_types.specs.declared.named.Named.TheVariants as thing;
ghost use Rattle.iocm_types.specs.Naming.{naming_cmp};
ghost use Rattle.iocm_table.specs.Slots.{rows};
ghost use Rattle.iocm_index.specs.Namings.{users_in};
ghost use Rattle.iocm_model.specs.Machine.Configuration.{lookup_of};
ghost use Rattle.iocm_model.specs.Rules.EachRule.{breaks_v4};
ghost use Rattle.iocm_lookup.specs.Among.{least_of};
ghost use Rattle.iocm_lookup.specs.Indexed.{IsIndexOf};
ghost use Rattle.iocm_rules.specs.Onlines as onlines;
ghost use Rattle.iocm_lookup.specs.First.{first_key};

use crate::online::WrongOnline;
use iocm_config::Config;
use iocm_index::Index;
use iocm_lookup::{is_wanted_at, lesser};
use iocm_types::{Chpid, Css, Key, Named};
use std::alloc::Allocator;

/// The key of the first online record that breaks V4, if one does, where none does but on the path
/// of one of these keys. Of the records that name such a path it looks at each up to the first that
/// breaks the rule.
pub fn first_wrong_online_among<A: Allocator, I: Allocator>(
    config: &Config<A>,
    index: &Index<I>,
    keys: &[Key],
) -> Option<Key>
    requires index { IsIndexOf config.now.records index.now }
    requires paths { onlines.AreOnPathsOf keys.now config.now.records }
    ensures { result ≡ first_key (breaks_v4 config.now.records) config.now.records }
{
    config.has_own_keys();
    least_on_paths(config, index, keys)
}

/// The least online record on the paths of some keys that breaks V4.
#[tactic(auto, using(iocm_lookup::proofs::Leasts::least_steps))]
fn least_on_paths<A: Allocator, I: Allocator>(
    config: &Config<A>,
    index: &Index<I>,
    keys: &[Key],
) -> Option<Key>
    requires { IsIndexOf config.now.records index.now }
    ensures { result ≡ least_of
        (onlines.first_on_path (breaks_v4 config.now.records) (lookup_of config.now.records)
        (rows naming_cmp index.now))
        None
        keys.now }
{
    let mut least = None;
    for key in keys {
        least = lesser(least, first_on_path(config, index, key));
    }
    least
}

/// Of the records that name the path of an online record's key the first that breaks V4.
fn first_on_path<A: Allocator, I: Allocator>(
    config: &Config<A>,
    index: &Index<I>,
    key: &Key,
) -> Option<Key>
    requires { IsIndexOf config.now.records index.now }
    ensures { result ≡ onlines.first_on_path (breaks_v4 config.now.records) (lookup_of config.now.records)
        (rows naming_cmp index.now) key.now }
{
    match key {
        Key::Online(css, path, _) => first_wrong_user(config, index, *css, *path),
        _ => None,
    }
}

/// Of the records that name a path the first that breaks V4.
fn first_wrong_user<A: Allocator, I: Allocator>(
    config: &Config<A>,
    index: &Index<I>,
    css: Css,
    path: Chpid,
) -> Option<Key>
    requires { IsIndexOf config.now.records index.now }
    ensures { result ≡ onlines.first_so (breaks_v4 config.now.records) (lookup_of config.now.records)
        (users_in (thing.Record (key.Path css path)) (rows naming_cmp index.now)) }
{
    for user in index.users_of(Named::Record(Key::Path(css, path))) {
        if is_wanted_at(config, &WrongOnline, &user) {
            return Some(user);
        }
    }
    None
}
