//! One statement of a change deck: the records that an ADD or a MODIFY gives, and the keys that a
//! DELETE gives.
//!
//! `verb_named` reads the name field. `records_of` gives the whole records of a statement: those
//! that it gives in a deck of its own, a CHPID its path alone, and ONLINE a pair of a path and an
//! image for each name. `keys_of` looks only at the operands that give keys. Both answer the first
//! of S10, S3, S5 and S4, with the statement's line, and give what they give in the order of the
//! text; the records lie under any allocator. What a tree of such statements is stands in
//! `iocm_tree_reader`.
//!
//! Begin with `specs/Whole.antt` and `specs/Keys.antt`, then `whole.rt` and `keys.rt`. What names
//! no source is our own.
#![tactic(auto)]

mod image_keys;
mod keys;
mod limit_keys;
mod listed;
mod pairs;
mod resource_keys;
mod table;
mod verbs;
mod whole;

pub use image_keys::ImageKey;
pub use keys::keys_of;
pub use limit_keys::LimitSeat;
pub use listed::Shape;
pub use pairs::Pairs;
pub use verbs::verb_named;
pub use whole::records_of;
