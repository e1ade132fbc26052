ghost use Rattle.std.specs.Prelude.{◌≡◌};
ghost use Rattle.iocm_types.specs.Key.{key_cmp};

use crate::{Chpid, Css, DevNo, Mif, Name, SetNo, UnitNo};
use std::cmp::Ordering;
use std::fmt;

/// What a record of a configuration stands under. A configuration has at most one record of each
/// key. The kinds stand in the order of keys; within a kind the numbers decide, from left to right.
#[derive(Clone, Copy, PartialEq, Eq, PartialOrd, Ord)]
pub enum Key {
    /// The ID statement.
    Id,
    /// What a RESOURCE statement carries along.
    Resource,
    /// An image, by channel subsystem and MIF image ID.
    Image(Css, Mif),
    /// The limit of subchannels of a channel subsystem and subchannel set.
    Limit(Css, SetNo),
    /// A channel path of a channel subsystem.
    Path(Css, Chpid),
    /// A control unit.
    Unit(UnitNo),
    /// A device of a subchannel set.
    Device(SetNo, DevNo),
    /// That a channel path of a channel subsystem is online to the image of this name.
    Online(Css, Chpid, Name),
}

impl Key {
    /// By kind, then by the numbers from left to right.
    pub fn order(self, other: Key) -> Ordering
        ensures { result ≡ key_cmp self other }
    {
        self.cmp(&other)
    }
}

/// The kind in small letters, and the numbers with points between them, as `device 0.1000`.
impl fmt::Display for Key {
    ghost use Rattle.std.specs.Prelude.{Some};
    ghost use Rattle.iocm_types.specs.Key.{key_text};

    ghost output = { λ k. Some (key_text k) };

    fn fmt<W: fmt::Write>(&self, f: &mut fmt::Formatter<W>) -> fmt::Result {
        match self {
            Key::Id => f.write_str("id"),
            Key::Resource => f.write_str("resource"),
            Key::Image(css, mif) => write!(f, "image {css}.{mif}"),
            Key::Limit(css, set) => write!(f, "limit {css}.{set}"),
            Key::Path(css, path) => write!(f, "path {css}.{path}"),
            Key::Unit(unit) => write!(f, "unit {unit}"),
            Key::Device(set, device) => write!(f, "device {set}.{device}"),
            Key::Online(css, path, name) => write!(f, "online {css}.{path}.{name}"),
        }
    }
}
