ghost use Rattle.std.specs.Prelude.{◌≡◌, ◌<◌, ℕ, List, true, IfOk, IfSome};
ghost use Rattle.std.specs.Ordering.{is_le};
ghost use Rattle.iocm_types.specs.declared.key.Key.TheVariants as key;
ghost use Rattle.iocm_types.specs.Key.{key_cmp};
ghost use Rattle.iocm_plan.specs.Objects.{name_online, online_at};
ghost use Rattle.iocm_objects.specs.OnlineKeys.{greatest, is_past};

use iocm_config::Config;
use iocm_record::{Record, RecordBody};
use iocm_types::{Chpid, Css, DevNo, Key, Name, SetNo};
use std::alloc::{AllocError, Global};

/// The names of the images that are online at the path of a key, in order; none where the key is that of another
/// record. The time is that of a search, and of a walk over them.
///
/// `AllocError` (M1): memory ran out.
pub(crate) fn names_online(
    alloc: Global,
    config: &Config,
    key: &Key,
) -> Result<Vec<Name>, AllocError>
    ensures { IfOk result (λ names. names.items ≡ online_at config.now.records key.now) }
{
    match key {
        Key::Path(css, path) => names_at(alloc, config, *css, *path),
        _ => Ok(Vec::new(alloc)),
    }
}

/// The names of the images that are online at a path, in order.
fn names_at(alloc: Global, config: &Config, css: Css, path: Chpid) -> Result<Vec<Name>, AllocError>
    ensures { IfOk result (λ names. names.items ≡ online_at config.now.records (key.Path css path)) }
{
    config.has_own_keys();
    let mut names = Vec::new(alloc);
    for (key, entry) in config.walk_from(&before_path(css, path)) {
        if is_past(key, css, path) {
            return Ok(names);
        }
        if let Some(name) = name_of(entry, css, path) {
            names.push(name)?;
        }
    }
    Ok(names)
}

/// The image that a record tells to be online at a path.
fn name_of(entry: &Record, css: Css, path: Chpid) -> Option<Name>
    ensures { result ≡ name_online css path entry.now }
{
    match entry.body() {
        RecordBody::Online(own_css, own_path, name) if *own_css == css && *own_path == path => {
            Some(*name)
        }
        _ => None,
    }
}

/// Whether a key is behind those by which a path is online.
fn is_past(key: &Key, css: Css, path: Chpid) -> bool
    ensures { result ≡ is_past css path key.now }
{
    match key {
        Key::Online(own_css, own_path, _) => {
            css.number() < own_css.number() || css == *own_css && path.number() < own_path.number()
        }
        _ => false,
    }
}

/// A key that isn't behind any by which a path is online: that of the path before it, or of the last device.
fn before_path(css: Css, path: Chpid) -> Key
    ensures { (other : List ℕ) → is_le (key_cmp result (key.Online css path other)) ≡ true }
{
    let number = path.number();
    if number != 0 {
        return online_key(css, Chpid::new(number - 1));
    }
    match subsystem_before(css) {
        Some(other) => online_key(other, Chpid::new(0xFF)),
        None => Key::Device(SetNo::FIRST, DevNo::new(0xFFFF)),
    }
}

/// The channel subsystem before this one, if there is one.
fn subsystem_before(css: Css) -> Option<Css>
    ensures { IfSome result (λ other. other < css) }
{
    let number = css.number();
    if number == 0 {
        return None;
    }
    Css::new(number - 1)
}

/// The key by which a path is online to an image whose name is behind all others.
fn online_key(css: Css, path: Chpid) -> Key
    ensures { result ≡ key.Online css path greatest }
{
    match Name::new(b"ZZZZZZZZ") {
        Some(name) => Key::Online(css, path, name),
        None => unreachable!(),
    }
}
