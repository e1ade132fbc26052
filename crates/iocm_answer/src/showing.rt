ghost use Rattle.iocm_answer.specs.Answer.{Shows};
ghost use Rattle.iocm_answer.specs.declared.manner.Manner.{Manner};
ghost use Rattle.iocm_answer.specs.Commands.Show.{showed_of};

use crate::Answer;
use iocm_config::Config;
use iocm_console::{Refusal, Table};
use iocm_filter::Filters;
use std::alloc::Global;

/// `show`: the table of the subchannels of a deck that was opened, of those that are asked for. M1:
/// memory ran out.
///
/// Promise: `show` prints just the subchannels of a deck that are asked for, with their masks.
pub fn show<'f>(alloc: Global, opened: Config, filters: &'f Filters) -> Result<Answer<'f>, Refusal>
    ensures { (m : Manner) → Shows m result (showed_of m filters.entry.now opened.records) }
{
    Ok(Answer::Table(Table::at_opening(alloc, opened, filters)?))
}
