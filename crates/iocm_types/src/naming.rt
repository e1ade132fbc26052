use crate::{Key, Named};

/// That a record names something: what is named, and the key of the record that names it. Namings
/// are ordered by what is named, then by the key. The word is own.
#[derive(Clone, Copy, PartialEq, Eq, PartialOrd, Ord)]
pub struct Naming {
    /// What is named.
    pub named: Named,
    /// The record that names it.
    pub user: Key,
}
