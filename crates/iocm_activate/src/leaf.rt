ghost use Rattle.std.specs.Prelude.{◌≡◌, Option, Some, IfOk, OnOk, OnErr};
ghost use Rattle.iocm_types.specs.declared.refused.Refused as refused;
ghost use Rattle.iocm_model.specs.Change.Meaning.{node_meaning, at_node};
ghost use Rattle.iocm_model.specs.Change.Tree.{leaf};
ghost use Rattle.iocm_plant.specs.Refusing.{IsDue};
ghost use Rattle.iocm_activate.specs.Walked.{Answers, Ran, WereKept};

use crate::log::Log;
use crate::unchanged::leaves_its_record;
use iocm_plant::{Plant, what_happens_between};
use iocm_tree::Edit;
use iocm_types::{Refused, Rule};
use std::alloc::{AllocError, Allocator, Global};

/// Performs the edit of a leaf. The answer is why it is refused, if it is. Where it leaves the
/// record under its key as it was, the rules needn't be looked at for it.
///
/// `AllocError` (M1): memory ran out.
pub fn perform<A: Allocator>(
    alloc: Global,
    plant: &mut Plant,
    log: &mut Log,
    edit: &Edit<A>,
    node: u64,
) -> Result<Option<Refused>, AllocError>
    requires kept { WereKept log.old plant.old.state }
    ensures answers { IfOk result (Answers (node_meaning
        (leaf edit.now.edit) node plant.old.state) plant.old log.old plant.new log.new) }
    ensures ran { OnErr result (Ran plant.old log.old plant.new log.new) }
    ensures kept { WereKept log.new plant.new.state }
{
    // For the proof alone: the state is sound, and no place is lost where nothing is done.
    plant.is_sound();
    what_happens_between();
    log.room()?;
    let copy = edit.copy_in(alloc)?;
    let key = copy.key();
    match plant.apply(alloc, copy) {
        Ok(applied) => {
            if leaves_its_record(edit, &applied) {
                log.note_unchanged(key, applied);
                return Ok(None);
            }
            log.note(key, applied);
            Ok(None)
        }
        Err(why) => Ok(Some(unless_no_memory(why, node)?)),
    }
}

/// The refusal of an edit, with its node.
///
/// `AllocError` (M1): it was refused because memory ran out.
fn unless_no_memory(why: Refused, node: u64) -> Result<Refused, AllocError>
    ensures { IfOk result (λ named. (due : Option refused.Refused) → IsDue due why → (due ≡ Some why)
        × (named ≡ at_node node why)) }
{
    unless_memory_wanted(&why)?;
    Ok(why.at_node(node))
}

/// That an edit is refused for another reason than lack of memory.
///
/// `AllocError` (M1): memory ran out.
pub fn unless_memory_wanted(why: &Refused) -> Result<(), AllocError>
    ensures { OnOk result ((due : Option refused.Refused) → IsDue due why.now → due ≡ Some why.now) }
{
    if why.rule == Rule::M1 {
        return Err(AllocError);
    }
    Ok(())
}
