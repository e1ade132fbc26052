//! The canonical deck of a configuration, which is read again as the same configuration.
//!
//! `to_statements` gives the statements of records in the order of keys: ID, RESOURCE, CHPID,
//! CNTLUNIT, IODEVICE, each known operand in its one canonical form and place, and behind them what
//! the statement carries. Devices that follow each other are joined in one statement, as many as
//! can be. `to_write` gives the operand part of a statement, ready for the columns. Each is exactly
//! what `canonical` and `to_write` of `specs/Canonical.antt` say. `canonical_deck` puts both
//! together: equal configurations are written as equal bytes. `laws.rt` says that the operand part
//! of a statement is read as the operands that were written.
//!
//! Begin with `specs/Canonical.antt`, then `statements.rt`; `unit.rt`, `chpid.rt`, `resource.rt`
//! and `device.rt` write the operands of each statement.
#![tactic(auto)]

mod chpid;
mod deck;
mod device;
mod laws;
mod operands;
mod resource;
mod statement;
mod statements;
mod unit;
mod writing;

pub use deck::canonical_deck;
pub use device::continues;
pub use laws::{operands_are_read_again, operands_are_written_again};
pub use statement::CanonicalStatement;
pub use statements::to_statements;
pub use writing::to_write;
