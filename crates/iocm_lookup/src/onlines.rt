ghost use Rattle.std.specs.Prelude.{◌≡◌, ℕ, List, true};
ghost use Rattle.std.specs.Ordering.{is_le};
ghost use Rattle.iocm_types.specs.declared.key.Key.TheVariants as key;
ghost use Rattle.iocm_types.specs.Key.{key_cmp};
ghost use Rattle.iocm_model.specs.Machine.Record.{online};
ghost use Rattle.iocm_model.specs.Rules.EachRule.{some_before, is_online_at};

use crate::among::is_before;
use crate::images::subsystem_before;
use crate::kind::RecordKind;
use iocm_config::Config;
use iocm_record::{Record, RecordBody};
use iocm_types::{Chpid, Css, Key, Name};
use std::alloc::Allocator;

/// Whether a path is online to an image whose name is less than this one. The time is that of a
/// search, and of a walk over the online records of the path before it with this name or a greater
/// one.
pub fn is_online_before<A: Allocator>(config: &Config<A>, css: Css, path: Chpid, name: Name) -> bool
    ensures { result ≡ some_before config.now.records (online (record { css = css; path = path; name = name }))
        (is_online_at css path) }
{
    config.has_own_keys();
    let own = Key::Online(css, path, name);
    for (key, entry) in config.walk_from(&before_path(css, path, name)) {
        if !is_before(key, &own) {
            return false;
        }
        if is_online_on(entry, css, path) {
            return true;
        }
    }
    false
}

/// A key that is not behind any online record of a path. The name is one of the path before it.
fn before_path(css: Css, path: Chpid, name: Name) -> Key
    ensures { (other : List ℕ) → is_le (key_cmp result (key.Online css path other)) ≡ true }
{
    let number = path.number();
    if number != 0 {
        return Key::Online(css, Chpid::new(number - 1), name);
    }
    match subsystem_before(css) {
        Some(other) => Key::Online(other, Chpid::new(0xFF), name),
        None => RecordKind::Online.first(),
    }
}

/// Whether a record says that a path is online to an image.
fn is_online_on<A: Allocator>(entry: &Record<A>, css: Css, path: Chpid) -> bool
    ensures { result ≡ is_online_at css path entry.now }
{
    match entry.body() {
        RecordBody::Online(own_css, own_path, _) => *own_css == css && *own_path == path,
        _ => false,
    }
}
