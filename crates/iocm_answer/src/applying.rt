ghost use Rattle.std.specs.Prelude.{◌≡◌, IfOk, List, Option};
ghost use Rattle.iocm_console.specs.Refusal.{Decides};
ghost use Rattle.iocm_filter.specs.Sieves.{IsSieveFor};
ghost use Rattle.iocm_model.specs.Change.Edit as edit;
ghost use Rattle.iocm_model.specs.Change.Meaning.{meaning};
ghost use Rattle.iocm_model.specs.Laws.Trees.{KeepsTheRules};
ghost use Rattle.iocm_model.specs.Operation.State.{State};
ghost use Rattle.iocm_tree.specs.Trees.{plain_tree, tree_of};
ghost use Rattle.iocm_answer.specs.Answer.{shown, Shows};
ghost use Rattle.iocm_answer.specs.Manner.{in_form};
ghost use Rattle.iocm_answer.specs.declared.manner.Manner.{Manner};
ghost use Rattle.iocm_command.specs.declared.report.Report.TheVariants as reports;
ghost use Rattle.iocm_filter.specs.Wanted.{Wanted};
ghost use Rattle.iocm_lines.specs.declared.refused.Input.{Input};
ghost use Rattle.iocm_answer.specs.Commands.Apply as applying;
ghost use Rattle.iocm_answer.specs.Making.{IsMadeBy};
ghost use Rattle.iocm_console.specs.Shown.{done};

use crate::change::read_change;
use crate::{Altered, Answer, Asked};
use iocm_activate::{Made, make};
use iocm_command::Report;
use iocm_config::Config;
use iocm_console::{Refusal, Table, read_config};
use iocm_filter::{Filters, Sieve};
use iocm_lines::Form;
use iocm_plant::Plant;
use iocm_record_lines::record_lines;
use iocm_reports::{count_altered, deck_text, way_back};
use iocm_tree::Tree;
use std::alloc::{AllocError, Global};

/// The machine of a deck as it is opened, or why the deck is refused: its first fault, or else the
/// first rule that it breaks. M1: memory ran out.
pub fn open_machine(alloc: Global, deck: &[u8]) -> Result<Plant, Refusal>
    ensures state { Decides (λ p. p.state) result (applying.opened_machine deck.now) }
    ensures rules { IfOk result (λ p. KeepsTheRules p.state) }
{
    let config = read_config(alloc, deck)?;
    match Plant::open(alloc, config) {
        Ok(plant) => Ok(plant),
        Err(unopened) => Err(Refusal::from(unopened.why)),
    }
}

/// `apply`: what a change deck does to a machine, by the report that is asked for; or the change
/// deck's first fault, or the refusal of the change. The change tree is read in a heap as
/// `read_change` says.
///
/// M1: memory ran out.
///
/// Promise: `apply` prints just the report of what the change means, or one refusal.
pub fn apply<'f>(
    alloc: Global,
    form: Form,
    heap: Option<u32>,
    asked: &Asked<'f>,
    plant: Plant,
    change: &[u8],
) -> Result<Answer<'f>, Refusal>
    requires rules { KeepsTheRules plant.state }
    ensures { (input : Option Input) → Shows (in_form form input) result
        (applying.tried (in_form form input) asked.now plant.state change.now) }
{
    let tree = read_change(alloc, heap, change)?;
    make_change(alloc, form, asked, plant, &tree)
}

/// What a change tree does to a machine, by the report that is asked for, or its refusal.
fn make_change<'f>(
    alloc: Global,
    form: Form,
    asked: &Asked<'f>,
    plant: Plant,
    tree: &Tree,
) -> Result<Answer<'f>, Refusal>
    requires rules { KeepsTheRules plant.state }
    ensures { (input : Option Input) → Shows (in_form form input) result (applying.made (in_form form input)
        asked.now plant.state (meaning (plain_tree (tree_of tree.now)) plant.state)) }
{
    let before = Sieve::new(alloc, asked.filters, plant.config())?;
    let mut plant = plant;
    let made = make(alloc, &mut plant, tree)?;
    Ok(report(
        alloc,
        form,
        asked.report,
        asked.filters,
        &before,
        &made,
        plant,
    )?)
}

/// The report that is asked for, of a change that was made, with the sieve of the configuration
/// before it.
///
/// `AllocError` (M1): memory ran out.
fn report<'f>(
    alloc: Global,
    form: Form,
    report: Report,
    filters: &'f Filters,
    before: &Sieve<'_>,
    made: &Made,
    plant: Plant,
) -> Result<Answer<'f>, AllocError>
    ensures { (input : Option Input) (es : List edit.Edit) (s : State) → IsSieveFor filters.entry.now s.config before.now
        → IsMadeBy made.now es s → IfOk result (λ a. shown (in_form form input) a
        ≡ done (applying.reported (in_form form input) report filters.entry.now es s plant.state)) }
{
    match report {
        Report::Table => report_table(alloc, filters, made, plant),
        _ => report_of(alloc, form, report, before, made, &plant),
    }
}

/// How many subchannels a change altered, and the table afterwards.
///
/// `AllocError` (M1): memory ran out.
fn report_table<'f>(
    alloc: Global,
    filters: &'f Filters,
    made: &Made,
    plant: Plant,
) -> Result<Answer<'f>, AllocError>
    ensures { (m : Manner) (es : List edit.Edit) (s : State) → IsMadeBy made.now es s
        → IfOk result (λ a. shown m a ≡ done (applying.reported m reports.Table filters.entry.now es s plant.state)) }
{
    let altered = count_altered(alloc, made.performed.as_slice())?;
    let table = Table::in_operation(alloc, plant, filters)?;
    Ok(Answer::Changed(altered, table))
}

/// The report that is asked for, but the table.
///
/// `AllocError` (M1): memory ran out.
fn report_of<'f>(
    alloc: Global,
    form: Form,
    report: Report,
    before: &Sieve<'_>,
    made: &Made,
    plant: &Plant,
) -> Result<Answer<'f>, AllocError>
    requires { applying.IsNoTable report }
    ensures { (input : Option Input) (w : Wanted) (es : List edit.Edit) (s : State) → IsSieveFor w s.config before.now
        → IsMadeBy made.now es s → IfOk result (λ a. shown (in_form form input) a
        ≡ done (applying.reported (in_form form input) report w es s plant.now.state)) }
{
    let performed = made.performed.as_slice();
    match report {
        Report::WayBack => Ok(Answer::Text(way_back(alloc, form, &made.inverse)?)),
        Report::Altered => Ok(Answer::Altered(Altered::of(alloc, before, performed, plant)?)),
        Report::Count => Ok(Answer::Counted(Altered::of(alloc, before, performed, plant)?)),
        Report::Deck => Ok(Answer::Text(filed(alloc, form, plant.config())?)),
        Report::Test => Ok(Answer::Tried(count_altered(alloc, performed)?)),
        Report::Table => unreachable!(),
    }
}

/// The deck of a configuration, or a line of JSON for each of its records.
///
/// `AllocError` (M1): memory ran out.
fn filed(alloc: Global, form: Form, config: &Config) -> Result<Vec<u8>, AllocError>
    ensures { IfOk result (λ text. text.items ≡ applying.filed_in form config.now.records) }
{
    match form {
        Form::Text => deck_text(alloc, config),
        Form::Json => record_lines(alloc, config),
    }
}
