ghost use Rattle.std.specs.Prelude.{◌≡◌, List, None, reverse, IfOk, MatchOption};
ghost use Rattle.iocm_model.specs.Change.Edit as model;
ghost use Rattle.iocm_model.specs.Change.InverseTree.{inverse_tree};
ghost use Rattle.iocm_model.specs.Laws.Trees.{KeepsTheRules};
ghost use Rattle.iocm_model.specs.Operation.State.{State};
ghost use Rattle.iocm_history.specs.Fits as history;
ghost use Rattle.iocm_tree.specs.Trees.{edit_in, leaf, parts_of, plain_parts, tree_of, plain};
ghost use Rattle.iocm_plant.specs.Operating.{KeepsRoom};
ghost use Rattle.iocm_activate.specs.Done.{AreToldBy};
ghost use Rattle.iocm_activate.specs.Fitting.{gone_back, gone_back_along, way_gone};
ghost use Rattle.iocm_activate.specs.Told.{LeadsTo, told_of_all, way_back};
ghost use Rattle.iocm_activate.specs.Walked.{WereKept};

use crate::leaf::unless_memory_wanted;
use crate::log::Log;
use crate::rules::first_broken;
use crate::taking_back::take_all_back;
use crate::turned::is_turned;
use iocm_plant::{Plant, Touched, what_happens_between};
use iocm_tree::{Edit, Tree};
use std::alloc::{AllocError, Allocator, Global};

/// Whether a change fits a machine that keeps the rules: whether the edits of its inverse tree,
/// performed now, be the subchannels quiet or not, take back edit by edit just what the change did,
/// each number cell and each view from what it was after the edit to what it was before; and
/// whether the rules are kept at the end. The state stays as it is.
///
/// `AllocError` (M1): memory ran out.
///
/// Promise: it is told exactly whether a change could be taken back now, and nothing is changed.
pub fn fits<A: Allocator>(
    alloc: Global,
    plant: &mut Plant,
    inverse: &Tree<A>,
    performed: &[Touched],
) -> Result<bool, AllocError>
    requires kept { KeepsTheRules plant.old.state }
    ensures fits { IfOk result (λ is. (es : List model.Edit) (s : State) → plain inverse.now ≡ inverse_tree es s
        → AreToldBy performed.now (told_of_all es s)
        → is ≡ history.fits (record { edits = es; from = s }) plant.old.state) }
    ensures same { plant.new.state ≡ plant.old.state }
    ensures room { KeepsRoom plant.old.room plant.new.room }
{
    // For the proof alone: the state is sound.
    plant.is_sound();
    match inverse {
        Tree::Row(parts) => {
            let mut log = Log::new(alloc);
            let answer = try_back(alloc, plant, &mut log, parts, performed);
            take_all_back(plant, log);
            answer
        }
        Tree::Leaf(_) | Tree::Group(_) | Tree::Choose(_) => Ok(false),
    }
}

/// Whether these parts take back what was performed, and the rules are kept at the end. What was
/// done until then is still done.
///
/// `AllocError` (M1): memory ran out.
fn try_back<A: Allocator>(
    alloc: Global,
    plant: &mut Plant,
    log: &mut Log,
    parts: &Vec<Tree<A>, A>,
    performed: &[Touched],
) -> Result<bool, AllocError>
    requires kept { WereKept log.old plant.old.state }
    ensures fits { IfOk result (λ is. is ≡ history.keeps_the_rules
        (gone_back_along (plain_parts (parts_of parts.now.items)) (reverse performed.now) plant.old.state)) }
    ensures back { (s : State) → LeadsTo (way_back log.old.done.items) s plant.old
        → LeadsTo (way_back log.new.done.items) s plant.new }
    ensures room { KeepsRoom plant.old.room plant.new.room }
{
    if !all_go_back(alloc, plant, log, parts, performed)? {
        return Ok(false);
    }
    Ok(first_broken(plant, log).is_ok())
}

/// Performs parts in order, each of which is to take back what was performed, the last first. The
/// answer is whether they do; it stops at the first that doesn't. What was done until then is still
/// done.
///
/// `AllocError` (M1): memory ran out.
fn all_go_back<A: Allocator>(
    alloc: Global,
    plant: &mut Plant,
    log: &mut Log,
    parts: &Vec<Tree<A>, A>,
    performed: &[Touched],
) -> Result<bool, AllocError>
    requires kept { WereKept log.old plant.old.state }
    ensures went { IfOk result (λ went. gone_back_along (plain_parts (parts_of parts.now.items))
        (reverse performed.now) plant.old.state ≡ way_gone went plant.new.state) }
    ensures back { (s : State) → LeadsTo (way_back log.old.done.items) s plant.old
        → LeadsTo (way_back log.new.done.items) s plant.new }
    ensures room { KeepsRoom plant.old.room plant.new.room }
    ensures kept { WereKept log.new plant.new.state }
{
    // For the proof alone: places are kept from part to part.
    what_happens_between();
    let mut left = performed;
    for part in parts {
        let Some((was, rest)) = left.split_last() else {
            return Ok(false);
        };
        let Some(edit) = edit_of(part) else {
            return Ok(false);
        };
        if !goes_back(alloc, plant, log, edit, was)? {
            return Ok(false);
        }
        left = rest;
    }
    Ok(true)
}

/// Performs an edit that is to take back what another one did. The answer is whether it does; where
/// it is refused, it doesn't.
///
/// `AllocError` (M1): memory ran out.
fn goes_back<A: Allocator>(
    alloc: Global,
    plant: &mut Plant,
    log: &mut Log,
    edit: &Edit<A>,
    was: &Touched,
) -> Result<bool, AllocError>
    requires kept { WereKept log.old plant.old.state }
    ensures went { IfOk result (λ went. gone_back edit.now.edit was.now plant.old.state
        ≡ way_gone went plant.new.state) }
    ensures back { (s : State) → LeadsTo (way_back log.old.done.items) s plant.old
        → LeadsTo (way_back log.new.done.items) s plant.new }
    ensures room { KeepsRoom plant.old.room plant.new.room }
    ensures kept { WereKept log.new plant.new.state }
{
    // For the proof alone: the state is sound, and what could be taken back before can be so still.
    plant.is_sound();
    what_happens_between();
    log.room()?;
    let copy = edit.copy_in(alloc)?;
    let key = copy.key();
    match plant.force(alloc, copy) {
        Ok(applied) => {
            let went = is_turned(&applied.touched, was);
            log.note(key, applied);
            Ok(went)
        }
        Err(why) => {
            unless_memory_wanted(&why)?;
            Ok(false)
        }
    }
}

/// The edit of a part, if it is one.
fn edit_of<A: Allocator>(part: &Tree<A>) -> Option<&Edit<A>>
    ensures { MatchOption result (edit_in (tree_of part.now) ≡ None) (λ e. tree_of part.now ≡ leaf e.now) }
{
    match part {
        Tree::Leaf(edit) => Some(edit),
        Tree::Row(_) | Tree::Group(_) | Tree::Choose(_) => None,
    }
}
