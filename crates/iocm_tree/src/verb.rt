/// What an edit does with a record of a configuration. The words are own.
#[derive(Clone, Copy, PartialEq, Eq)]
pub enum Verb {
    /// A record is added under a key that has none.
    Add,
    /// The record of a key is taken away.
    Delete,
    /// The record of a key is replaced.
    Modify,
}
