ghost use Rattle.std.specs.Prelude.{◌≡◌};
ghost use Rattle.iocm_types.specs.Naming.{named_cmp};

use crate::{Key, Name, UnitNo};
use std::cmp::Ordering;

/// What a record names: another record by its key, the images of a name, or a unit address of a
/// control unit. That records name each other so is own.
#[derive(Clone, Copy, PartialEq, Eq, PartialOrd, Ord)]
pub enum Named {
    /// The record of this key.
    Record(Key),
    /// Each image of this name.
    Image(Name),
    /// A unit address of a control unit, 00 to FF.
    Address(UnitNo, u8),
}

impl Named {
    /// Records before images, and these before unit addresses; then by the key, by the bytes of the
    /// name, or by the unit and the address.
    pub fn order(self, other: Named) -> Ordering
        ensures { result ≡ named_cmp self other }
    {
        self.cmp(&other)
    }
}
