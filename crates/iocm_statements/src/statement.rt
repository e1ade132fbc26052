use crate::{Operands, Operation};
use iocm_types::Text;

/// A statement of a deck, as `parse` gives it.
#[derive(Drop)]
pub struct Statement {
    /// The name field, which configuration decks ignore.
    pub name: Text,
    pub operation: Operation,
    pub operands: Operands,
    /// The line of its first record, counted from 1.
    pub line: usize,
}
