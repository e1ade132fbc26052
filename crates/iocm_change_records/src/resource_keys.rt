ghost use Rattle.std.specs.Prelude.{◌≡◌, [], codes};
ghost use Rattle.iocm_types.specs.Fault.{Gives};
ghost use Rattle.iocm_record_reader.specs.Values.{optional};
ghost use Rattle.iocm_change_records.specs.ResourceKeys as meaning;

use crate::image_keys::image_keys;
use crate::limit_keys::limit_keys;
use iocm_statements::{Operands, or_malformed};
use iocm_types::{Fault, Key};
use iocm_values::Value;
use std::alloc::Global;

fn written_images(alloc: Global, operands: &Operands, malformed: Fault) -> Result<Vec<Key>, Fault>
    ensures { Gives (λ v. v.items) result (optional malformed meaning.image_keys [] (codes "PARTITION") operands.now) }
{
    match operands.get(b"PARTITION") {
        Some(text) => or_malformed(image_keys(alloc, Value::new(text)), malformed),
        None => Ok(Vec::new(alloc)),
    }
}

fn written_limits(alloc: Global, operands: &Operands, malformed: Fault) -> Result<Vec<Key>, Fault>
    ensures { Gives (λ v. v.items) result (optional malformed meaning.limit_keys [] (codes "MAXDEV") operands.now) }
{
    match operands.get(b"MAXDEV") {
        Some(text) => or_malformed(limit_keys(alloc, Value::new(text)), malformed),
        None => Ok(Vec::new(alloc)),
    }
}

/// The keys of DELETE RESOURCE: images, then limits; without PARTITION and MAXDEV that of what the
/// statement carries. Answers `malformed` where a value is, and M1 without memory.
pub fn resource_keys(
    alloc: Global,
    operands: &Operands,
    malformed: Fault,
) -> Result<Vec<Key>, Fault>
    ensures { Gives (λ v. v.items) result (meaning.resource_keys malformed operands.now) }
{
    if operands.get(b"PARTITION").is_none() && operands.get(b"MAXDEV").is_none() {
        return Ok(vec![in alloc; Key::Resource]?);
    }
    let mut keys = written_images(alloc, operands, malformed)?;
    let mut limits = written_limits(alloc, operands, malformed)?;
    keys.append(&mut limits)?;
    Ok(keys)
}
