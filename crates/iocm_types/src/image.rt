use crate::{Css, Mif};

/// An image (logical partition): its channel subsystem and its MIF image ID there (IOCP User's
/// Guide, RESOURCE statement). Images are ordered by channel subsystem, then by image ID.
#[derive(Clone, Copy, PartialEq, Eq, PartialOrd, Ord)]
pub struct Image {
    /// The channel subsystem that the image is in.
    pub css: Css,
    /// The MIF image ID, which no other image of the channel subsystem has.
    pub mif: Mif,
}
