ghost use Rattle.std.specs.Prelude.{◌≡◌, IfOk};
ghost use Rattle.iocm_tree_writer.specs.Leaves as meaning;

use crate::operands::online_statement;
use iocm_deck_writer::{CanonicalStatement, to_statements};
use iocm_record::{Record, RecordBody};
use iocm_statements::Operation;
use std::alloc::{AllocError, Allocator, Global};

// The statement of a record that isn't an Online record. A Resource record that carries nothing has
// none in a deck; here it is RESOURCE without operands.
fn deck_statement<A: Allocator>(
    alloc: Global,
    entry: &Record<A>,
) -> Result<CanonicalStatement, AllocError>
    requires { meaning.IsDeckRecord entry.now }
    ensures { IfOk result (λ s. s ≡ meaning.record_statement entry.now) }
{
    let mut statements = to_statements(alloc, &[entry])?;
    match statements.pop() {
        Some(statement) => Ok(statement),
        None => Ok(CanonicalStatement::new(Operation::Resource, Vec::new(alloc))),
    }
}

/// The statement of a record in the canonical form. Answers the lack of memory alone.
pub fn record_statement<A: Allocator>(
    alloc: Global,
    entry: &Record<A>,
) -> Result<CanonicalStatement, AllocError>
    ensures { IfOk result (λ s. s ≡ meaning.record_statement entry.now) }
{
    match entry.body() {
        RecordBody::Online(css, number, name) => online_statement(alloc, *css, *number, *name),
        _ => deck_statement(alloc, entry),
    }
}
