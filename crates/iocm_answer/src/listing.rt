ghost use Rattle.std.specs.Prelude.{◌≡◌, IfOk, Option};
ghost use Rattle.iocm_answer.specs.Answer.{Shows};
ghost use Rattle.iocm_answer.specs.Manner.{in_form};
ghost use Rattle.iocm_lines.specs.declared.refused.Input.{Input};
ghost use Rattle.iocm_answer.specs.Commands.Listing as meaning;

use crate::Answer;
use iocm_command::Listed;
use iocm_config::Config;
use iocm_console::Refusal;
use iocm_filter::Filters;
use iocm_lines::Form;
use iocm_list::{device_table, image_table, path_table, unit_table};
use iocm_list_lines::{device_lines, image_lines, path_lines, unit_lines};
use std::alloc::{AllocError, Global};

/// `list`: the table of what a deck that was opened has of one kind, of what is connected with what is
/// asked for, or a line of JSON for each of its rows. M1: memory ran out.
///
/// Promise: `list` prints just the rows of a deck that are asked for, as words or as lines of JSON.
pub fn list<'f>(
    alloc: Global,
    form: Form,
    listed: Listed,
    filters: &Filters,
    opened: &Config,
) -> Result<Answer<'f>, Refusal>
    ensures { (input : Option Input) → Shows (in_form form input) result
        (meaning.listed_of (in_form form input) listed filters.now opened.now.records) }
{
    let text = match form {
        Form::Text => table_of(alloc, listed, filters, opened)?,
        Form::Json => lines_of(alloc, listed, filters, opened)?,
    };
    Ok(Answer::Text(text))
}

/// The table of it.
fn table_of(
    alloc: Global,
    listed: Listed,
    filters: &Filters,
    opened: &Config,
) -> Result<Vec<u8>, AllocError>
    ensures { IfOk result (λ text. text.items ≡ meaning.table_of listed filters.now opened.now.records) }
{
    match listed {
        Listed::Images => image_table(alloc, filters, opened),
        Listed::Paths => path_table(alloc, filters, opened),
        Listed::Units => unit_table(alloc, filters, opened),
        Listed::Devices => device_table(alloc, filters, opened),
    }
}

/// A line for each of its rows.
fn lines_of(
    alloc: Global,
    listed: Listed,
    filters: &Filters,
    opened: &Config,
) -> Result<Vec<u8>, AllocError>
    ensures { IfOk result (λ text. text.items ≡ meaning.lines_of listed filters.now opened.now.records) }
{
    match listed {
        Listed::Images => image_lines(alloc, filters, opened),
        Listed::Paths => path_lines(alloc, filters, opened),
        Listed::Units => unit_lines(alloc, filters, opened),
        Listed::Devices => device_lines(alloc, filters, opened),
    }
}
