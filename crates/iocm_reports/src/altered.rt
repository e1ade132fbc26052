ghost use Rattle.std.specs.Prelude.{◌≡◌, ◌++◌, List, map, IfOk, OnOk};
ghost use Rattle.std.specs.FinMap.{find, len};
ghost use Rattle.std.specs.List.Sorted.{IsStrictlySortedBy};
ghost use Rattle.std.specs.Map.{keys_of};
ghost use Rattle.iocm_types.specs.SubId.{sub_id_cmp};
ghost use Rattle.iocm_types.specs.declared.sub_id.SubId as subchannels;
ghost use Rattle.iocm_model.specs.Change.Edit.{Edit};
ghost use Rattle.iocm_model.specs.Change.Runs.{effect_of};
ghost use Rattle.iocm_model.specs.Operation.State.{State};
ghost use Rattle.iocm_activate.specs.Done.{AreToldBy};
ghost use Rattle.iocm_activate.specs.Told.{told_of_all};
ghost use Rattle.iocm_reports.specs.Altered as meaning;
ghost use Rattle.iocm_reports.specs.Gathered.{row_of, seen_before, seen_before_edits};

use crate::memory::{Allocated, SeenBefore};
use iocm_plant::{Plant, Touched};
use iocm_seats::ViewChange;
use iocm_types::first_in_order;
use std::alloc::Global;

/// What a change altered, of whose edits this was told, on the machine that it left: each subchannel
/// in order, with what was seen there before the change and what is seen there after it. A subchannel
/// that one edit altered and a later one put back is among them, too. The time is that of sorting
/// them, each as often as an edit altered it; of one edit nothing is sorted.
///
/// `AllocError` (M1): memory ran out.
pub fn altered_rows(
    alloc: Global,
    performed: &[Touched],
    plant: &Plant,
) -> Allocated<Vec<ViewChange>>
    ensures rows { (es : List Edit) (s : State) → AreToldBy performed.now (told_of_all es s)
        → IfOk result (λ listed. listed.items ≡ meaning.altered_rows es s plant.now.state) }
    ensures order { IfOk result (λ listed. meaning.AreInOrder listed.items) }
{
    let first = seen_first(alloc, performed)?;
    list_rows(alloc, first.as_slice(), plant)
}

/// How many subchannels a change altered, of whose edits this was told: as many as there are rows.
/// The time is that of sorting them, as for rows; of one edit nothing is listed.
///
/// `AllocError` (M1): memory ran out.
pub fn count_altered(alloc: Global, performed: &[Touched]) -> Allocated<usize>
    ensures { (es : List Edit) (s : State) → AreToldBy performed.now (told_of_all es s)
        → IfOk result (λ count. count ≡ len (effect_of es s).lives) }
{
    // An edit tells of each subchannel once.
    if let [touched] = performed {
        return Ok(touched.subchannels.len());
    }
    let first = seen_first(alloc, performed)?;
    Ok(first.len())
}

/// What was seen at each subchannel that an edit altered, before the first edit that did, in order.
/// Where the subchannels rise, as those of one edit do, the list stays as it is, and takes no more
/// memory. Else the time is that of sorting, which merges the subchannels of edits.
fn seen_first(alloc: Global, performed: &[Touched]) -> Allocated<Vec<SeenBefore>>
    ensures first { IfOk result (λ rows. (x : subchannels.SubId)
        → find sub_id_cmp x rows.items ≡ find sub_id_cmp x (seen_before_edits performed.now)) }
    ensures order { IfOk result (λ rows. IsStrictlySortedBy sub_id_cmp (keys_of rows.items)) }
{
    let listed = list_seen(alloc, performed)?;
    first_in_order(listed)
}

/// What was seen at each subchannel that an edit altered, before it, edit by edit.
fn list_seen(alloc: Global, performed: &[Touched]) -> Allocated<Vec<SeenBefore>>
    ensures { IfOk result (λ listed. listed.items ≡ seen_before_edits performed.now) }
{
    let mut listed = Vec::with_capacity(alloc, told_of(performed))?;
    for touched in performed {
        add_seen(&mut listed, touched.subchannels.as_slice())?;
    }
    Ok(listed)
}

/// How many subchannels edits tell of, each as often as an edit altered it. No clause says it: memory
/// that is taken for them at once doesn't move.
fn told_of(performed: &[Touched]) -> usize {
    let mut count = 0usize;
    for touched in performed {
        count = count.saturating_add(touched.subchannels.len());
    }
    count
}

/// Puts what was seen before an edit where it altered a subchannel behind what is listed.
fn add_seen(listed: &mut Vec<SeenBefore>, changes: &[ViewChange]) -> Allocated<()>
    ensures { OnOk result (listed.new.items ≡ listed.old.items ++ seen_before changes.now) }
{
    for change in changes {
        listed.push((change.subchannel, change.before))?;
    }
    Ok(())
}

/// The rows of subchannels of which it is known what was seen first, on the machine that a change
/// left.
fn list_rows(alloc: Global, first: &[SeenBefore], plant: &Plant) -> Allocated<Vec<ViewChange>>
    ensures { IfOk result (λ listed. listed.items ≡ map (row_of plant.now.state) first.now) }
{
    let mut listed = Vec::with_capacity(alloc, first.len())?;
    for row in first {
        listed.push(ViewChange {
            subchannel: row.0,
            before: row.1,
            after: plant.view(row.0),
        })?;
    }
    Ok(listed)
}
