use iocm_types::{Chpid, Css, DevNo, Image, Name, SetNo};

/// An image that is asked for.
#[derive(Clone, Copy, PartialEq, Eq)]
pub enum ImageWord {
    /// The image at this place.
    Place(Image),
    /// Each image of this name.
    Named(Name),
}

/// A path that is asked for.
#[derive(Clone, Copy, PartialEq, Eq)]
pub struct PathWord {
    /// The channel subsystem, or none: then the path of this number in each.
    pub css: Option<Css>,
    /// The path's number.
    pub path: Chpid,
}

/// Device numbers of a subchannel set that are asked for, from the first to the last.
#[derive(Clone, Copy, PartialEq, Eq)]
pub struct DeviceRange {
    /// The subchannel set.
    pub set: SetNo,
    /// The first number.
    pub first: DevNo,
    /// The last number.
    pub last: DevNo,
}
