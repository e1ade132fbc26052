/// How a channel path is used by the images of its channel subsystem (IOCP User's Guide, CHPID
/// statement).
#[derive(Clone, Copy, PartialEq, Eq)]
pub enum PathKind {
    /// By one image, for good.
    Dedicated,
    /// By several images at a time: `SHARED`.
    Shared,
    /// By one image at a time: `REC`.
    Reconfigurable,
}
