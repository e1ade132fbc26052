ghost use Rattle.std.specs.Prelude.{◌≡◌, [], ◌∷◌, nat_eq, IfOk, MatchOption};
ghost use Rattle.std.specs.List.{list_any};
ghost use Rattle.iocm_model.specs.Machine.Configuration.{records_of};
ghost use Rattle.iocm_seats.specs.Listing.{AreSubsystemsOf};

use crate::image_keys::is_past_images;
use iocm_config::Config;
use iocm_record::{Record, RecordBody};
use iocm_types::Css;
use std::alloc::{AllocError, Allocator};

/// The channel subsystems of the images of a configuration. The clause says that none is missing;
/// one that is there twice would only take longer. The walk over the records stops behind the
/// images.
///
/// `AllocError` (M1): memory ran out.
pub(crate) fn image_subsystems<A: Allocator, B: Allocator>(
    alloc: B,
    config: &Config<A>,
) -> Result<Vec<Css, B>, AllocError>
    ensures { IfOk result (λ subsystems.
        AreSubsystemsOf (records_of config.now.records) subsystems.items) }
{
    // For the proof alone: each record stands under its own key.
    config.has_own_keys();
    let mut subsystems = Vec::new(alloc);
    for (key, entry) in config.walk() {
        if is_past_images(key) {
            return Ok(subsystems);
        }
        if let Some(css) = new_subsystem(subsystems.as_slice(), entry) {
            subsystems.push(css)?;
        }
    }
    Ok(subsystems)
}

/// The channel subsystem of a record, if it is that of an image and the channel subsystem isn't
/// among these.
fn new_subsystem<A: Allocator>(subsystems: &[Css], entry: &Record<A>) -> Option<Css>
    ensures { MatchOption result (AreSubsystemsOf (entry.now ∷ []) subsystems.now)
        (λ css. AreSubsystemsOf (entry.now ∷ []) (css ∷ [])) }
{
    let RecordBody::Image(css, _, _) = entry.body() else {
        return None;
    };
    if has_subsystem(subsystems, *css) {
        return None;
    }
    Some(*css)
}

/// Whether a channel subsystem is among these.
fn has_subsystem(subsystems: &[Css], css: Css) -> bool
    ensures { result ≡ list_any (nat_eq css) subsystems.now }
{
    subsystems.contains(&css)
}
