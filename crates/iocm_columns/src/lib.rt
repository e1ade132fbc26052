//! From the bytes of a deck to joined statements, the first two stages of reading, and back to
//! bytes.
//!
//! `Device::read_to_end` reads the bytes (L5). `join` checks each line (L1, L2), puts each statement
//! and its continuations together (L3, L4) and takes its name, operation and operand part out of
//! the columns. `cards` gives the lines alone. A card borrows its bytes from the text. The layer
//! above may rely on this: each answer is exactly what the definitions `joined_of` and `cards_of`
//! say of the bytes, or their first fault; only lack of memory may come instead.
//!
//! `deck_bytes` writes joined statements into columns again; what it writes of statements that can
//! be written is read again.
//!
//! Begin with `specs/Cards.antt` and `specs/Statements.antt`, which say what a line, a card and a
//! statement are, then `lines.rt` and `statement.rt`. `laws.rt` states what a statement's text is
//! in other words: one slice of the columns of each of its cards.
#![tactic(auto)]

mod card;
mod columns;
mod device;
mod going;
mod joined;
mod laws;
mod lines;
mod part;
mod statement;
mod statement_card;
mod words;
mod written;

pub use card::{Card, CardBytes};
pub use device::Device;
pub use joined::Joined;
pub use laws::{decks_are_joined, statements_are_slices, written_statements_are_read_again};
pub use lines::cards;
pub use statement::join;
pub use written::deck_bytes;
