use iocm_types::Text;

/// A statement with its continuations joined: the line of its first card, the name field, the
/// operation and the operand part, without remarks.
#[derive(Drop)]
pub struct Joined {
    /// The number of the first card's line.
    pub line: usize,
    /// The name field, from column 1 to the first blank; empty if column 1 is blank.
    pub name: Text,
    /// The word behind the name; empty if there is none.
    pub operation: Text,
    /// The operand part, of all cards.
    pub text: Text,
}
