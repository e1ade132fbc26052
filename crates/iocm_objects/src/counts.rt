ghost use Rattle.std.specs.Prelude.{◌≡◌};
ghost use Rattle.iocm_objects.specs.Counts as meaning;

use crate::object::{Change, Object};
use iocm_types::Key;

/// The kinds of objects, in the order of keys.
#[derive(Clone, Copy)]
pub enum ObjectKind {
    /// What the ID statement carries along.
    Id,
    /// What RESOURCE statements carry along.
    Resource,
    /// An image.
    Image,
    /// A limit of subchannels.
    Limit,
    /// A channel path.
    Path,
    /// A control unit.
    Unit,
    /// A device.
    Device,
}

/// How many objects of a kind are added, deleted or changed.
pub fn count_objects(objects: &[Object], change: Change, kind: ObjectKind) -> usize
    ensures { result ≡ meaning.count_objects change kind objects.now }
{
    objects
        .iter()
        .filter(|object| object.change == change && is_of_kind(kind, &object.key))
        .count()
}

/// Whether a key is that of an object of a kind.
pub fn is_of_kind(kind: ObjectKind, key: &Key) -> bool
    ensures { result ≡ meaning.is_of_kind kind key.now }
{
    match (kind, key) {
        (ObjectKind::Id, Key::Id) => true,
        (ObjectKind::Resource, Key::Resource) => true,
        (ObjectKind::Image, Key::Image(_, _)) => true,
        (ObjectKind::Limit, Key::Limit(_, _)) => true,
        (ObjectKind::Path, Key::Path(_, _)) => true,
        (ObjectKind::Unit, Key::Unit(_)) => true,
        (ObjectKind::Device, Key::Device(_, _)) => true,
        _ => false,
    }
}
