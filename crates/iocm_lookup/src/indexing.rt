ghost use Rattle.std.specs.Prelude.{IfOk};
ghost use Rattle.iocm_lookup.specs.Indexed.{IsIndexOf};

use iocm_config::Config;
use iocm_index::{Index, list_namings};
use std::alloc::{AllocError, Allocator};

/// The index of a configuration: who names whom in it. All namings are listed first and the index
/// is built of them at once, in the time of sorting them, or in proportion to their number where
/// they stand in order already.
///
/// `AllocError` (M1): memory ran out.
pub fn index_of<A: Allocator, B: Allocator + Clone>(
    alloc: B,
    config: &Config<A>,
) -> Result<Index<B>, AllocError>
    ensures { IfOk result (λ index. IsIndexOf config.now.records index) }
{
    config.has_own_keys();
    // Most records name one thing.
    let mut namings = Vec::with_capacity(alloc.clone()?, config.len())?;
    for (_, entry) in config.walk() {
        list_namings(&mut namings, entry)?;
    }
    Index::from_namings(alloc, namings)
}
