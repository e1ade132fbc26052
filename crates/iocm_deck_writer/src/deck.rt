ghost use Rattle.std.specs.Prelude.{◌≡◌, map, IfOk};
ghost use Rattle.iocm_deck_writer.specs.Canonical as meaning;

use crate::writing::to_write;
use crate::{CanonicalStatement, to_statements};
use iocm_columns::{Joined, deck_bytes};
use iocm_config::Config;
use iocm_record::Record;
use iocm_table::Rows;
use iocm_types::Key;
use std::alloc::{AllocError, Allocator, Global};

// The records of a walk, in its order.
fn records_in<'a, A: Allocator>(
    alloc: Global,
    walk: Rows<'a, Key, Record<A>>,
) -> Result<Vec<&'a Record<A>>, AllocError>
    ensures { IfOk result (λ records. map (λ k. k.now) records.items ≡ map (λ row. row.1) walk.entry) }
{
    let mut records = Vec::new(alloc);
    for (_, entry) in walk {
        records.push(entry)?;
    }
    Ok(records)
}

fn all_to_write(alloc: Global, statements: &[CanonicalStatement]) -> Result<Vec<Joined>, AllocError>
    ensures { IfOk result (λ deck. deck.items ≡ map meaning.to_write statements.now) }
{
    let mut deck = Vec::new(alloc);
    for statement in statements {
        deck.push(to_write(alloc, statement)?)?;
    }
    Ok(deck)
}

/// The bytes of the canonical deck of a configuration. Answers the lack of memory alone.
pub fn canonical_deck<A: Allocator>(
    alloc: Global,
    config: &Config<A>,
) -> Result<Vec<u8>, AllocError>
    ensures { IfOk result (λ bytes. bytes.items ≡ meaning.canonical_deck config.now.records) }
{
    let records = records_in(alloc, config.walk())?;
    let statements = to_statements(alloc, &records)?;
    let deck = all_to_write(alloc, &statements)?;
    let bytes = deck_bytes(alloc, &deck)?;
    Ok(bytes)
}
