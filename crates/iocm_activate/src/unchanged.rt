ghost use Rattle.std.specs.Prelude.{◌≡◌, true};
ghost use Rattle.iocm_model.specs.Change.Edit.{record_after};

use iocm_difference::is_same_record;
use iocm_plant::Applied;
use iocm_tree::Edit;
use std::alloc::Allocator;

/// Whether an edit that was performed put the same record in the place of the one that was there.
pub fn leaves_its_record<A: Allocator>(edit: &Edit<A>, applied: &Applied) -> bool
    ensures { result ≡ true → record_after edit.now.edit.action ≡ record_after applied.now.inverse.edit.action }
{
    match (edit.after(), applied.inverse.after()) {
        (Some(new), Some(old)) => is_same_record(old, new),
        _ => false,
    }
}
