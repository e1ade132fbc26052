//! From joined statements to statements with their operands in order.
//!
//! `parse` goes over all statements of a deck. For each it finds the operation (S1), cuts the
//! operand part at its commas outside parentheses and quotes (S6), splits each operand at its first
//! equal sign (S4) and looks for keywords that come twice (S2). It knows nothing of what a keyword
//! means.
//!
//! The layer above reads values with `pieces`, which cuts any text at its commas, and answers
//! `Unread` where a value has none of its forms. At which line that stands is said once, for the
//! statement.
//!
//! Begin with `parser.rt`, then `split.rt`; `laws.rt` says what cutting means without saying how.

#![tactic(auto)]

mod keying;
mod laws;
mod nesting;
mod operand;
mod operands;
mod operation;
mod parser;
mod short_text;
mod split;
mod statement;
mod unread;
mod word;

pub use laws::{
    operands_are_what_their_texts_say, operations_are_named, pieces_are_those_of_the_text,
};
pub use nesting::Nesting;
pub use operands::{OperandKey, Operands};
pub use operation::Operation;
pub use parser::parse;
pub use short_text::ShortText;
pub use split::pieces;
pub use statement::Statement;
pub use unread::{Unread, or_malformed};
pub use word::is_same_word;
