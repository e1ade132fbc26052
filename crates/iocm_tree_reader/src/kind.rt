/// What a node is that a statement opens. The words are own.
#[derive(Clone, Copy, PartialEq, Eq)]
pub enum NodeKind {
    /// The parts are performed in order, all or none.
    Row,
    /// A Row after which the rules hold.
    Group,
    /// The first part that is accepted is performed.
    Choose,
}
