use crate::{NodeKind, Nodes};
use std::alloc::{Allocator, Global};

/// An open node: its statement has come, and its END hasn't.
#[derive(Drop)]
pub struct OpenNode<A: Allocator = Global> {
    /// What it is.
    pub kind: NodeKind,
    /// The line of its statement.
    pub line: usize,
    /// Its parts so far.
    pub parts: Nodes<A>,
}

/// What was read of a change deck so far.
#[derive(Drop)]
pub struct Reading<A: Allocator = Global> {
    /// The nodes at the top that are closed.
    pub top: Nodes<A>,
    /// The open nodes, the innermost last.
    pub stack: Vec<OpenNode<A>, A>,
}
