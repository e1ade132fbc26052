ghost use Rattle.std.specs.Prelude.{◌≡◌, IfOk};
ghost use Rattle.std.specs.Vec.{vec_items};
ghost use Rattle.iocm_model.specs.Machine.Configuration.{with_keys};
ghost use Rattle.iocm_config.specs.OnlineLast.{is_online, online_last};

use iocm_record::Record;
use iocm_types::Key;
use std::alloc::{AllocError, Allocator};

/// Records, each with its key before it, and those that say what is online last. A deck has them
/// after their path. Where all else stands in the order of keys, nothing has to be sorted so.
pub(crate) fn list_by_key<A: Allocator, B: Allocator, C: Allocator + Clone>(
    alloc: C,
    records: Vec<Record<A>, B>,
) -> Result<Vec<(Key, Record<A>), C>, AllocError>
    ensures { IfOk result (λ listed. vec_items listed ≡ online_last (with_keys records.items)) }
{
    let mut onlines = Vec::new(alloc.clone()?);
    let mut listed = Vec::with_capacity(alloc, records.len())?;
    for entry in records {
        let key = entry.key();
        if is_online(&key) {
            onlines.push((key, entry))?;
        } else {
            listed.push((key, entry))?;
        }
    }
    listed.append(&mut onlines)?;
    Ok(listed)
}

fn is_online(key: &Key) -> bool
    ensures { result ≡ is_online key.now }
{
    matches!(key, Key::Online(_, _, _))
}
