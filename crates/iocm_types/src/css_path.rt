use crate::{Chpid, Css};

/// A channel path of a channel subsystem, as a control unit lists it (IOCP User's Guide, PATH
/// keyword of the CNTLUNIT statement).
#[derive(Clone, Copy, PartialEq, Eq)]
pub struct CssPath {
    /// The channel subsystem.
    pub css: Css,
    /// The path's number there.
    pub path: Chpid,
}
