use iocm_types::{SubId, View};
use std::alloc::AllocError;

/// What is made, or that memory ran out (M1).
pub(crate) type Allocated<T> = Result<T, AllocError>;

/// A subchannel, and what was seen there before an edit.
pub(crate) type SeenBefore = (SubId, Option<View>);
