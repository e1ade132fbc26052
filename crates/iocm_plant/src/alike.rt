ghost use Rattle.std.specs.Prelude.{◌≡◌, true};
ghost use Rattle.std.specs.Option.{option_copied};
ghost use Rattle.iocm_plant.specs.Alike.{address_of, AreAlike, IsPutAlike};
ghost use Rattle.iocm_plant.specs.declared.alike.Likeness.TheVariants.{Alike};

use iocm_affected::is_seen_alike;
use iocm_record::{Record, RecordBody};

/// How the record that an edit puts in stands to the one that was there. The word is own.
#[derive(Clone, Copy)]
pub enum Likeness {
    /// A device comes in the place of one that is seen alike and names the same things. So who
    /// names whom stays as it is, and all is seen as before.
    Alike,
    /// Of anything else it isn't known.
    Unknown,
}

/// How a record that comes stands to the one that was there.
pub fn likeness_of(before: Option<&Record>, after: Option<&Record>) -> Likeness
    ensures { result ≡ Alike → IsPutAlike (option_copied before.entry) (option_copied after.entry) }
{
    match (before, after) {
        (Some(old), Some(new)) if are_alike(old, new) => Likeness::Alike,
        _ => Likeness::Unknown,
    }
}

/// Whether two records are devices that are seen alike and name the same things. Of other records
/// it isn't asked.
fn are_alike(old: &Record, new: &Record) -> bool
    ensures { result ≡ true → AreAlike old.now new.now }
{
    is_seen_alike(old, new) && unit_address(old) == unit_address(new)
}

/// The unit address of a device.
fn unit_address(entry: &Record) -> Option<u8>
    ensures { result ≡ address_of entry.now }
{
    match entry.body() {
        RecordBody::Device(fields) => Some(fields.unit_address),
        _ => None,
    }
}
