use crate::{DevNo, Mask, Paths};

/// What an image sees at one of its subchannels: the device, its paths there in the order of the
/// masks' bits, and the path-installed and path-available masks (Principles of Operation,
/// path-management-control word).
#[derive(Clone, Copy, PartialEq, Eq)]
pub struct View {
    /// The number of the device.
    pub device: DevNo,
    /// The paths by which the image reaches it, the first eight.
    pub paths: Paths,
    /// The path-installed mask: a bit for each of the paths.
    pub pim: Mask,
    /// The path-available mask: a bit for each path that is online to the image.
    pub pam: Mask,
}
