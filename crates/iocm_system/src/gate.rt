/// What the calls of a thread pass, one after the other.
pub trait Gate {
    /// Comes before the call of this index, counted from 0. Whether the call may be made.
    fn before(&self, index: usize) -> bool;

    /// Comes after the call of this index was made.
    fn after(&self, index: usize);
}

/// The gate through which every call goes.
#[derive(Clone, Copy)]
pub struct Open;

impl Gate for Open {
    fn before(&self, _index: usize) -> bool {
        true
    }

    fn after(&self, _index: usize) {}
}
