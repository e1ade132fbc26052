ghost use Rattle.std.specs.Prelude.{◌≡◌, ◌++◌, map, OnOk, IfOk};
ghost use Rattle.iocm_objects.specs.Runs.{run_of};
ghost use Rattle.iocm_plan_text.specs.Sections as meaning;

use crate::asked::PlanAsked;
use crate::notes::{DeckNotes, put_notes};
use crate::summary::{put_nothing, put_summary};
use iocm_impact::Impact;
use iocm_impact_text::{put_blocks, put_images, put_totals};
use iocm_objects::{Object, object_lines, runs_of};
use std::alloc::{AllocError, Global};
use std::marker::Model;

/// What a plan prints. Contracts see the bytes and whether anything is told.
#[derive(Drop)]
pub struct Plan {
    /// The text.
    pub text: Vec<u8>,
    /// Whether anything is told: an object that differs, or an image that is affected.
    pub is_told: bool,
}

/// Puts what a plan tells behind a text, or that nothing is told.
pub(crate) fn put_plan(
    text: &mut Vec<u8>,
    alloc: Global,
    asked: &PlanAsked<'_>,
    notes: &DeckNotes,
    off_and_on: &[u8],
    objects: &[Object],
    impact: &Impact,
) -> Result<(), AllocError>
    ensures { OnOk result (text.new.items ≡ text.old.items
        ++ meaning.plan asked.now notes.now off_and_on.now objects.now impact.now) }
{
    if is_told(objects, impact) {
        put_sections(text, alloc, asked, notes, off_and_on, objects, impact)
    } else {
        put_nothing(text, asked.is_filtered())
    }
}

/// Puts the sections of a plan, each behind an empty line but the first, behind a text.
fn put_sections(
    text: &mut Vec<u8>,
    alloc: Global,
    asked: &PlanAsked<'_>,
    notes: &DeckNotes,
    off_and_on: &[u8],
    objects: &[Object],
    impact: &Impact,
) -> Result<(), AllocError>
    ensures { OnOk result (text.new.items ≡ text.old.items
        ++ meaning.sections asked.now notes.now off_and_on.now objects.now impact.now) }
{
    put_objects(text, alloc, asked.is_brief, objects)?;
    put_impact(text, alloc, asked.is_brief, impact)?;
    put_off_and_on(text, off_and_on)?;
    put_notes_section(text, alloc, notes, objects)?;
    put_ending(text, alloc, asked.is_filtered(), objects, impact)?;
    Ok(())
}

/// Puts what was put into a section, and an empty line, behind a text; nothing if there is nothing in it.
fn put_section(text: &mut Vec<u8>, section: &[u8]) -> Result<(), AllocError>
    ensures { OnOk result (text.new.items ≡ text.old.items ++ meaning.section section.now) }
{
    if section.is_empty() {
        return Ok(());
    }
    text.extend_from_slice(section)?;
    text.push(b'\n')?;
    Ok(())
}

/// Puts the lines of objects behind a text, unless the plan is brief.
#[tactic(auto, unfolding(crate::specs::Sections::objects_section))]
fn put_objects(
    text: &mut Vec<u8>,
    alloc: Global,
    is_brief: bool,
    objects: &[Object],
) -> Result<(), AllocError>
    ensures { OnOk result (text.new.items ≡ text.old.items ++ meaning.objects_section is_brief objects.now) }
{
    if is_brief {
        return Ok(());
    }
    let section = lines_of(alloc, objects)?;
    put_section(text, &section)
}

fn lines_of(alloc: Global, objects: &[Object]) -> Result<Vec<u8>, AllocError>
    ensures { IfOk result (λ lines. lines.items ≡ meaning.object_lines objects.now) }
{
    let runs = runs_of(alloc, objects)?;
    let lines = object_lines(alloc, &runs)?;
    Ok(lines)
}

/// Puts the table of images behind a text, and unless the plan is brief their rows.
#[tactic(auto, unfolding(crate::specs::Sections::impact_sections))]
fn put_impact(
    text: &mut Vec<u8>,
    alloc: Global,
    is_brief: bool,
    impact: &Impact,
) -> Result<(), AllocError>
    ensures { OnOk result (text.new.items ≡ text.old.items ++ meaning.impact_sections is_brief impact.now) }
{
    put_table(text, alloc, impact)?;
    put_rows(text, alloc, is_brief, impact)?;
    Ok(())
}

fn put_table(text: &mut Vec<u8>, alloc: Global, impact: &Impact) -> Result<(), AllocError>
    ensures { OnOk result (text.new.items ≡ text.old.items ++ meaning.table_section impact.now) }
{
    let mut section = Vec::new(alloc);
    put_images(&mut section, alloc, impact.images())?;
    put_section(text, &section)
}

fn put_rows(
    text: &mut Vec<u8>,
    alloc: Global,
    is_brief: bool,
    impact: &Impact,
) -> Result<(), AllocError>
    ensures { OnOk result (text.new.items ≡ text.old.items ++ meaning.rows_section is_brief impact.now) }
{
    if is_brief {
        return Ok(());
    }
    let mut section = Vec::new(alloc);
    put_blocks(&mut section, alloc, impact.blocks(), impact.all())?;
    put_section(text, &section)
}

/// Puts what goes off and on behind a text.
#[tactic(auto, unfolding(crate::specs::Sections::offon_section))]
fn put_off_and_on(text: &mut Vec<u8>, off_and_on: &[u8]) -> Result<(), AllocError>
    ensures { OnOk result (text.new.items ≡ text.old.items ++ meaning.offon_section off_and_on.now) }
{
    put_section(text, off_and_on)
}

#[tactic(auto, unfolding(crate::specs::Sections::notes_section))]
fn put_notes_section(
    text: &mut Vec<u8>,
    alloc: Global,
    notes: &DeckNotes,
    objects: &[Object],
) -> Result<(), AllocError>
    ensures { OnOk result (text.new.items ≡ text.old.items ++ meaning.notes_section notes.now objects.now) }
{
    let mut section = Vec::new(alloc);
    put_notes(&mut section, alloc, notes, objects)?;
    put_section(text, &section)
}

/// Puts the last two lines behind a text.
#[tactic(auto, unfolding(crate::specs::Sections::ending))]
fn put_ending(
    text: &mut Vec<u8>,
    alloc: Global,
    is_filtered: bool,
    objects: &[Object],
    impact: &Impact,
) -> Result<(), AllocError>
    ensures { OnOk result (text.new.items ≡ text.old.items ++ meaning.ending is_filtered objects.now impact.now) }
{
    put_summary(text, alloc, is_filtered, objects)?;
    put_totals(text, alloc, impact)?;
    Ok(())
}

/// Whether anything is told: an object that differs, or an image that is affected.
pub(crate) fn is_told(objects: &[Object], impact: &Impact) -> bool
    ensures { result ≡ meaning.is_told objects.now impact.now }
{
    !objects.is_empty() || !impact.images().is_empty()
}
