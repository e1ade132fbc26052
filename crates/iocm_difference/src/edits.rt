ghost use Rattle.std.specs.Prelude.{◌≡◌, map, IfOk, OnOk};
ghost use Rattle.std.specs.Option.{option_map};
ghost use Rattle.iocm_tree.specs.Carried.{bare};
ghost use Rattle.iocm_difference.specs.Difference.{difference};
ghost use Rattle.iocm_difference.specs.Met.{pair_met};
ghost use Rattle.iocm_difference.specs.Passes.{passes_in, with_any};
ghost use Rattle.iocm_difference.specs.Walks.{action_at};

use crate::merge::{Merge, Met};
use crate::passes::Passes;
use crate::same::is_same_record;
use iocm_config::Config;
use iocm_tree::Edit;
use std::alloc::{AllocError, Allocator};

/// The edits that lead from one configuration to another, one for each key at which they differ,
/// pass by pass. Nothing comes along with them. The time is that of one walk over both, and memory
/// is wanted only for what differs.
///
/// `AllocError` (M1): memory ran out.
pub fn difference<A: Allocator, B: Allocator, C: Allocator + Copy>(
    alloc: C,
    old: &Config<A>,
    new: &Config<B>,
) -> Result<Vec<Edit<C>, C>, AllocError>
    ensures { IfOk result (λ es. es.items ≡ map bare (difference old.now.records new.now.records)) }
{
    let mut passes = Passes::new(alloc);
    let mut merge = Merge::new(old, new);
    while let Some(met) = merge.step() {
        put_edit(&mut passes, alloc, &met)?;
    }
    passes.joined()
}

/// Puts the edit of a key to its pass, if one is wanted there.
fn put_edit<A: Allocator, B: Allocator, C: Allocator + Copy>(
    passes: &mut Passes<C>,
    alloc: C,
    met: &Met<'_, A, B>,
) -> Result<(), AllocError>
    ensures { OnOk result (passes_in passes.new
        ≡ with_any (passes_in passes.old) (option_map bare (action_at (pair_met met.now)))) }
{
    match edit_at(alloc, met)? {
        Some(edit) => passes.put(edit),
        None => Ok(()),
    }
}

/// The edit that leads the record of a key from the old one to the new one; none where they are the
/// same.
fn edit_at<A: Allocator, B: Allocator, C: Allocator + Copy>(
    alloc: C,
    met: &Met<'_, A, B>,
) -> Result<Option<Edit<C>>, AllocError>
    ensures { IfOk result (λ edit. edit ≡ option_map bare (action_at (pair_met met.now))) }
{
    Ok(match (met.old, met.new) {
        (None, None) => None,
        (None, Some(new)) => Some(Edit::add(alloc, new.copy_in(alloc)?)),
        (Some(_), None) => Some(Edit::delete(alloc, *met.key)),
        (Some(old), Some(new)) if is_same_record(old, new) => None,
        (Some(_), Some(new)) => Some(Edit::modify(alloc, new.copy_in(alloc)?)),
    })
}
