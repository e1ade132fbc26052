ghost use Rattle.std.specs.Prelude.{◌≡◌, IfOk};
ghost use Rattle.iocm_model.specs.Machine.Configuration.{records_of};

use iocm_config::Config;
use iocm_record::Record;
use std::alloc::{AllocError, Global};

/// An equal configuration. The time is in proportion to its records.
///
/// `AllocError` (M1): memory ran out.
pub(crate) fn copy_of(alloc: Global, config: &Config) -> Result<Config, AllocError>
    ensures { IfOk result (λ copy. copy.records ≡ config.now.records) }
{
    // For the proof alone: no key stands twice.
    config.has_own_keys();
    let records = copied(alloc, config)?;
    Config::from_records(alloc, records)
}

/// Copies of the records, in the order of keys.
fn copied(alloc: Global, config: &Config) -> Result<Vec<Record>, AllocError>
    ensures { IfOk result (λ records. records.items ≡ records_of config.now.records) }
{
    let mut records = Vec::with_capacity(alloc, config.len())?;
    for (_, entry) in config.walk() {
        records.push(entry.copy_in(alloc)?)?;
    }
    Ok(records)
}
