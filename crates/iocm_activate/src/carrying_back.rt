ghost use Rattle.std.specs.Prelude.{◌≡◌, MatchOption, reverse};
ghost use Rattle.iocm_model.specs.Laws.Trees.{KeepsTheRules};
ghost use Rattle.iocm_tree.specs.Trees.{plain};
ghost use Rattle.iocm_plant.specs.Operating.{KeepsRoom};
ghost use Rattle.iocm_activate.specs.CarryingBack.{are_turned_back, WentBack};

use crate::carrying_out::give_way_back;
use crate::taking_back::take_all_back;
use crate::turned::is_turned;
use crate::whole_tree::walk_whole;
use iocm_plant::{Applied, Plant, Touched};
use iocm_tree::Tree;
use std::alloc::{Allocator, Global};

/// Carries out the inverse tree of a change where the change fits, and gives the tree that does the
/// change again. So it is tried and taken back by one walk through the tree.
///
/// None where the change doesn't fit, where the tree is refused, or where memory is missing; no
/// clause says when. Then the state is as it was.
pub fn carry_back<A: Allocator>(
    alloc: Global,
    plant: &mut Plant,
    inverse: &Tree<A>,
    performed: &[Touched],
) -> Option<Tree>
    requires kept { KeepsTheRules plant.old.state }
    ensures back { MatchOption result (plant.new.state ≡ plant.old.state)
        (λ redo. WentBack (plain inverse.now) performed.now plant.old.state plant.new.state (plain redo)) }
    ensures kept { KeepsTheRules plant.new.state }
    ensures room { KeepsRoom plant.old.room plant.new.room }
{
    // For the proof alone: the state is sound.
    plant.is_sound();
    let log = match walk_whole(alloc, plant, inverse) {
        Ok(log) => log,
        Err(_why) => return None,
    };
    if !are_turned_back(log.done.as_slice(), performed) {
        take_all_back(plant, log);
        return None;
    }
    match give_way_back(alloc, plant, log) {
        Ok(redo) => Some(redo),
        Err(_why) => None,
    }
}

/// Whether edits that were done did just what others did, turned round, the last of those first.
/// There may be more of the others.
fn are_turned_back(done: &[Applied], performed: &[Touched]) -> bool
    ensures { result ≡ are_turned_back done.now (reverse performed.now) }
{
    let mut left = performed;
    for applied in done {
        let Some((was, rest)) = left.split_last() else {
            return false;
        };
        if !is_turned(&applied.touched, was) {
            return false;
        }
        left = rest;
    }
    true
}
