//! The canonical deck of a configuration is read again as the same configuration: the laws that say
//! so, from the bytes of a deck to the records and back. There is nothing to call.
//!
//! `specs/Given.antt` says of which records a deck consists: the limits of each operand, and that
//! what is carried is text that can stand in a statement. `specs/Stating.antt` says what it is that
//! a statement is read again, from its columns and as its records; `specs/Running.antt` says what a
//! run of devices stands for. `specs/Again.antt` has the laws on whole decks. They stand on those
//! of the layers below, that the columns, the operand parts and each operand are read again as they
//! were written. `laws.rt` lists all of them.
#![tactic(auto)]

mod laws;

pub use laws::{
    decks_are_read_again, runs_are_the_devices, statements_are_read_again,
    statements_are_read_as_records,
};
