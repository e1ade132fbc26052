ghost use Rattle.std.specs.Prelude.{◌≡◌};
ghost use Rattle.iocm_offon_text.specs.Kinds as meaning;

use iocm_types::{Chpid, Key};

/// The kind of an object, by which objects are told together: paths of one number are.
#[derive(Clone, Copy)]
pub enum Kind {
    /// An image.
    Image,
    /// A channel path of this number.
    Path(Chpid),
    /// A control unit.
    Unit,
    /// A device.
    Device,
    /// Any other object, which leads to no device.
    Other,
}

/// The kind of the object of a key.
pub(crate) fn kind_of(key: &Key) -> Kind
    ensures { result ≡ meaning.kind_of key.now }
{
    match key {
        Key::Image(_, _) => Kind::Image,
        Key::Path(_, number) => Kind::Path(*number),
        Key::Unit(_) => Kind::Unit,
        Key::Device(_, _) => Kind::Device,
        _ => Kind::Other,
    }
}

pub(crate) fn is_same_kind(kind: &Kind, other: &Kind) -> bool
    ensures { result ≡ meaning.is_same_kind kind.now other.now }
{
    match (kind, other) {
        (Kind::Image, Kind::Image) => true,
        (Kind::Path(number), Kind::Path(another)) => *number == *another,
        (Kind::Unit, Kind::Unit) => true,
        (Kind::Device, Kind::Device) => true,
        (Kind::Other, Kind::Other) => true,
        _ => false,
    }
}

pub(crate) fn is_path(kind: &Kind) -> bool
    ensures { result ≡ meaning.is_path kind.now }
{
    match kind {
        Kind::Path(_) => true,
        _ => false,
    }
}

pub(crate) fn is_unit(kind: &Kind) -> bool
    ensures { result ≡ meaning.is_unit kind.now }
{
    match kind {
        Kind::Unit => true,
        _ => false,
    }
}
