ghost use Rattle.std.specs.Prelude.{◌≡◌};
ghost use Rattle.iocm_statements.specs.Unread.{Reads};
ghost use Rattle.iocm_command.specs.CommandLine as meaning;
ghost use Rattle.iocm_command.specs.CommandLine.{meant_of, rows_in};

use crate::matches::{filters_in, heap_in, is_given, value_of};
use crate::{Before, Command, PlanScope, Report};
use clap::ArgMatches;
use iocm_statements::Unread;
use std::alloc::Global;

/// Whether what was there before is asked for.
fn before_in(found: &ArgMatches<'_>) -> Before
    ensures { result ≡ meaning.before_in (rows_in found.now) }
{
    if is_given(found, "old") {
        Before::Shown
    } else {
        Before::LeftOut
    }
}

/// What `diff` asks for.
pub(crate) fn diff_in<'a>(found: &ArgMatches<'a>) -> Result<Command<'a>, Unread>
    ensures { Reads meant_of result (meaning.diff_in (rows_in found.now)) }
{
    let old = value_of(found, "OLD")?;
    let new = value_of(found, "NEW")?;
    let before = before_in(found);
    Ok(Command::Diff { old, new, before })
}

/// How much of a plan is asked for.
fn scope_in(found: &ArgMatches<'_>) -> PlanScope
    ensures { result ≡ meaning.scope_in (rows_in found.now) }
{
    PlanScope {
        is_brief: is_given(found, "brief"),
        is_lost: is_given(found, "lost"),
    }
}

/// What `plan` asks for.
pub(crate) fn plan_in<'a>(alloc: Global, found: &ArgMatches<'a>) -> Result<Command<'a>, Unread>
    ensures { Reads meant_of result (meaning.plan_in (rows_in found.now)) }
{
    let old = value_of(found, "OLD")?;
    let new = value_of(found, "NEW")?;
    let scope = scope_in(found);
    let filters = filters_in(alloc, found)?;
    Ok(Command::Plan {
        old,
        new,
        scope,
        filters,
    })
}

/// The report that is asked for so far, or one more; not both.
fn one_more(
    so_far: Option<Report>,
    is_given: bool,
    report: Report,
) -> Result<Option<Report>, Unread>
    ensures { Reads (λ r. r) result (meaning.one_more so_far is_given report) }
{
    match (so_far, is_given) {
        (so_far, false) => Ok(so_far),
        (None, true) => Ok(Some(report)),
        (Some(_), true) => Err(Unread::Malformed),
    }
}

/// The report that the flags of `apply` ask for, if one does.
fn report_given(found: &ArgMatches<'_>) -> Result<Option<Report>, Unread>
    ensures { Reads (λ r. r) result (meaning.report_given (rows_in found.now)) }
{
    let report = one_more(None, is_given(found, "undo"), Report::WayBack)?;
    let report = one_more(report, is_given(found, "altered"), Report::Altered)?;
    let report = one_more(report, is_given(found, "count"), Report::Count)?;
    let report = one_more(report, is_given(found, "deck"), Report::Deck)?;
    one_more(report, is_given(found, "test"), Report::Test)
}

/// The report that the flags of `apply` ask for; the table if none does.
fn report_in(found: &ArgMatches<'_>) -> Result<Report, Unread>
    ensures { Reads (λ r. r) result (meaning.report_in (rows_in found.now)) }
{
    Ok(report_given(found)?.unwrap_or(Report::Table))
}

/// Whether a flag of `apply` asks for a report.
fn has_report(found: &ArgMatches<'_>) -> bool
    ensures { result ≡ meaning.has_report (rows_in found.now) }
{
    is_given(found, "undo")
        || is_given(found, "altered")
        || is_given(found, "count")
        || is_given(found, "deck")
        || is_given(found, "test")
}

/// Whether a flag of `apply` asks for part of a plan.
fn has_plan_words(found: &ArgMatches<'_>) -> bool
    ensures { result ≡ meaning.has_plan_words (rows_in found.now) }
{
    is_given(found, "brief") || is_given(found, "exit-code") || is_given(found, "lost")
}

/// What `apply` asks for.
pub(crate) fn apply_in<'a>(alloc: Global, found: &ArgMatches<'a>) -> Result<Command<'a>, Unread>
    ensures { Reads meant_of result (meaning.apply_in (rows_in found.now)) }
{
    if is_given(found, "plan") {
        plan_change_in(alloc, found)
    } else {
        change_in(alloc, found)
    }
}

/// What `apply --plan` asks for: no other report, and no lines of JSON, which a plan hasn't yet.
fn plan_change_in<'a>(alloc: Global, found: &ArgMatches<'a>) -> Result<Command<'a>, Unread>
    ensures { Reads meant_of result (meaning.plan_change_in (rows_in found.now)) }
{
    if has_report(found) || is_given(found, "json") {
        return Err(Unread::Malformed);
    }
    let deck = value_of(found, "DECK")?;
    let change = value_of(found, "CHANGE")?;
    let heap = heap_in(found)?;
    let scope = scope_in(found);
    let filters = filters_in(alloc, found)?;
    Ok(Command::PlanChange {
        deck,
        change,
        heap,
        scope,
        filters,
    })
}

/// What `apply` asks for without a plan.
fn change_in<'a>(alloc: Global, found: &ArgMatches<'a>) -> Result<Command<'a>, Unread>
    ensures { Reads meant_of result (meaning.change_in (rows_in found.now)) }
{
    if has_plan_words(found) {
        return Err(Unread::Malformed);
    }
    let deck = value_of(found, "DECK")?;
    let change = value_of(found, "CHANGE")?;
    let heap = heap_in(found)?;
    let report = report_in(found)?;
    let filters = filters_in(alloc, found)?;
    Ok(Command::Apply {
        deck,
        change,
        heap,
        report,
        filters,
    })
}
