ghost use Rattle.std.specs.Prelude.{◌≡◌, IfOk, true, false};
ghost use Rattle.iocm_model.specs.Change.Meaning.{meaning};
ghost use Rattle.iocm_model.specs.Laws.Trees.{KeepsTheRules};
ghost use Rattle.iocm_tree.specs.Trees.{plain_tree, tree_of};
ghost use Rattle.iocm_answer.specs.Answer.{Shows};
ghost use Rattle.iocm_answer.specs.declared.manner.Manner as manners;
ghost use Rattle.iocm_answer.specs.Commands.Plan as planning;

use crate::Answer;
use crate::change::read_change;
use crate::copying::copy_of;
use iocm_activate::make;
use iocm_command::PlanScope;
use iocm_config::Config;
use iocm_console::{Refusal, open_deck};
use iocm_filter::Filters;
use iocm_plan_text::{PlanAsked, plan_of};
use iocm_plant::Plant;
use iocm_tree::Tree;
use std::alloc::Global;

/// `plan`: what leads from an old deck, which was opened, to a new one does to images and devices, as filters leave it;
/// or why the new deck is refused. M1: memory ran out.
///
/// Promise: `plan` prints just the plan of two decks, or one refusal, and says whether it tells something.
pub fn plan<'f>(
    alloc: Global,
    scope: PlanScope,
    filters: &Filters,
    old: &Config,
    new: &[u8],
) -> Result<Answer<'f>, Refusal>
    ensures text { (m : manners.Manner) → Shows m result
        (planning.planned_from m (planning.asked_of scope filters.now true) old.now.records new.now) }
    ensures told { IfOk result
        (planning.SaysIfTold (planning.asked_of scope filters.now true) old.now.records new.now) }
{
    let new = open_deck(alloc, new)?;
    let plan = plan_of(alloc, &asked_of(scope, filters, true), old, &new)?;
    Ok(Answer::Plan(plan))
}

/// `apply --plan`: what a change deck does to the images and devices of a machine, as filters leave it; or the change
/// deck's first fault, or the refusal of the change. The change tree is read in a heap as `read_change` says.
///
/// M1: memory ran out.
///
/// Promise: `apply --plan` prints just the plan of what the change means, or one refusal, and says whether it tells
/// something.
pub fn plan_change<'f>(
    alloc: Global,
    heap: Option<u32>,
    scope: PlanScope,
    filters: &Filters,
    plant: Plant,
    change: &[u8],
) -> Result<Answer<'f>, Refusal>
    requires rules { KeepsTheRules plant.state }
    ensures text { (m : manners.Manner) → Shows m result
        (planning.change_tried m (planning.asked_of scope filters.now false) plant.state change.now) }
    ensures told { IfOk result
        (planning.SaysOfChange (planning.asked_of scope filters.now false) plant.state change.now) }
{
    let tree = read_change(alloc, heap, change)?;
    let mut plant = plant;
    plan_tree(alloc, &asked_of(scope, filters, false), &mut plant, &tree)
}

fn asked_of<'f>(scope: PlanScope, filters: &'f Filters, is_of_decks: bool) -> PlanAsked<'f>
    ensures { result ≡ planning.asked_of scope filters.entry.now is_of_decks }
{
    PlanAsked {
        filters,
        is_lost: scope.is_lost,
        is_brief: scope.is_brief,
        is_of_decks,
    }
}

/// The plan of what a change tree does to a machine, or its refusal.
fn plan_tree<'f>(
    alloc: Global,
    asked: &PlanAsked<'_>,
    plant: &mut Plant,
    tree: &Tree,
) -> Result<Answer<'f>, Refusal>
    requires rules { KeepsTheRules plant.old.state }
    ensures text { (m : manners.Manner) → Shows m result
        (planning.planned_change m asked.now plant.old.state (meaning (plain_tree (tree_of tree.now)) plant.old.state)) }
    ensures told { IfOk result (planning.SaysOfOutcome asked.now plant.old.state
        (meaning (plain_tree (tree_of tree.now)) plant.old.state)) }
{
    let before = copy_of(alloc, plant.config())?;
    make(alloc, plant, tree)?;
    let plan = plan_of(alloc, asked, &before, plant.config())?;
    Ok(Answer::Plan(plan))
}
