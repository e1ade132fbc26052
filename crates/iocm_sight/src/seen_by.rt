use iocm_types::{Image, Name};

/// An image that sees devices, with how many of their paths are installed in it, and online to it.
#[derive(Clone, Copy, PartialEq, Eq)]
pub struct SeenBy {
    /// The image.
    pub image: Image,
    /// Its name.
    pub name: Name,
    /// How many paths are installed: those of the first eight that the image may use.
    pub installed: u32,
    /// How many are online.
    pub online: u32,
}
