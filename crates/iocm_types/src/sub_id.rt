ghost use Rattle.std.specs.Prelude.{◌≡◌};
ghost use Rattle.iocm_types.specs.SubId.{sub_id_cmp};

use crate::{Image, SetNo};
use std::cmp::Ordering;

/// The name of a subchannel: whose it is, in which subchannel set, and its number there, 0000 to
/// FFFF (Principles of Operation, subchannel number; sets: IOCP User's Guide, `SCHSET`).
#[derive(Clone, Copy, PartialEq, Eq, PartialOrd, Ord)]
pub struct SubId {
    /// The image that the subchannel is of.
    pub image: Image,
    /// The subchannel set.
    pub set: SetNo,
    /// The subchannel number, 0000 to FFFF.
    pub number: u16,
}

impl SubId {
    /// By channel subsystem, image, set and number.
    pub fn order(self, other: SubId) -> Ordering
        ensures { result ≡ sub_id_cmp self other }
    {
        self.cmp(&other)
    }
}
