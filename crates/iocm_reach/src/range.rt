use iocm_types::{Chpid, Css};

/// Paths of a channel subsystem side by side, from a first to a last one.
#[derive(Clone, Copy)]
pub struct PathRange {
    pub css: Css,
    pub first: Chpid,
    pub last: Chpid,
}
