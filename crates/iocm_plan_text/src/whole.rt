ghost use Rattle.std.specs.Prelude.{◌≡◌, IfOk};
ghost use Rattle.iocm_plan_text.specs.Whole as meaning;

use crate::asked::PlanAsked;
use crate::notes::notes_of_decks;
use crate::plan_text::{Plan, is_told, put_plan};
use iocm_config::Config;
use iocm_impact::{Impact, impact_of};
use iocm_objects::{Object, objects_of};
use iocm_offon_text::put_offon;
use iocm_plan_filter::objects_left;
use std::alloc::{AllocError, Global};

/// The plan of two configurations, as filters leave it: objects that differ, what becomes of images and devices, notes
/// and a summary. The time is that of one walk over both, and of one look at each run of devices for each image.
///
/// `AllocError` (M1): memory ran out.
///
/// Promise: what a plan prints is a function of the two configurations and of what is asked for.
#[tactic(auto, unfolding(crate::specs::Whole::plan_text, crate::specs::Whole::tells))]
pub fn plan_of(
    alloc: Global,
    asked: &PlanAsked<'_>,
    old: &Config,
    new: &Config,
) -> Result<Plan, AllocError>
    ensures text { IfOk result
        (λ plan. plan.text.items ≡ meaning.plan_text asked.now old.now.records new.now.records) }
    ensures told { IfOk result
        (λ plan. plan.is_told ≡ meaning.tells asked.now old.now.records new.now.records) }
{
    let objects = told_objects(alloc, asked, old, new)?;
    let impact = told_impact(alloc, asked, old, new)?;
    let notes = notes_of_decks(alloc, asked.is_of_decks, old, new)?;
    let off_and_on = told_off_and_on(alloc, asked, old, new, &objects)?;
    let mut text = Vec::new(alloc);
    put_plan(
        &mut text,
        alloc,
        asked,
        &notes,
        &off_and_on,
        &objects,
        &impact,
    )?;
    let is_told = is_told(&objects, &impact);
    Ok(Plan { text, is_told })
}

/// The objects that are told: those that filters leave of all that differ.
fn told_objects(
    alloc: Global,
    asked: &PlanAsked<'_>,
    old: &Config,
    new: &Config,
) -> Result<Vec<Object>, AllocError>
    ensures { IfOk result
        (λ objects. objects.items ≡ meaning.told_objects asked.now old.now.records new.now.records) }
{
    let objects = objects_of(alloc, old, new)?;
    objects_left(alloc, asked.filters, asked.is_lost, old, new, objects)
}

/// What is told of images and devices.
fn told_impact(
    alloc: Global,
    asked: &PlanAsked<'_>,
    old: &Config,
    new: &Config,
) -> Result<Impact, AllocError>
    ensures { IfOk result (λ impact. impact ≡ meaning.told_impact asked.now old.now.records new.now.records) }
{
    impact_of(alloc, asked.filters, asked.is_lost, old, new)
}

/// What is told of paths that go off and on.
fn told_off_and_on(
    alloc: Global,
    asked: &PlanAsked<'_>,
    old: &Config,
    new: &Config,
    objects: &[Object],
) -> Result<Vec<u8>, AllocError>
    ensures { IfOk result
        (λ text. text.items ≡ meaning.told_off_and_on asked.now old.now.records new.now.records objects.now) }
{
    let mut text = Vec::new(alloc);
    put_offon(
        &mut text,
        alloc,
        asked.filters,
        asked.is_lost,
        old,
        new,
        objects,
    )?;
    Ok(text)
}
