ghost use Rattle.std.specs.Prelude.{Option};
ghost use Rattle.iocm_answer.specs.Answer.{Shows};
ghost use Rattle.iocm_answer.specs.Manner.{in_form};
ghost use Rattle.iocm_lines.specs.declared.refused.Input.{Input};
ghost use Rattle.iocm_answer.specs.Commands.Write.{written_of};

use crate::Answer;
use iocm_config::Config;
use iocm_console::Refusal;
use iocm_deck_writer::canonical_deck;
use iocm_lines::Form;
use iocm_record_lines::record_lines;
use std::alloc::Global;

/// `write`: the canonical deck of a deck that was opened, or a line of JSON for each of its records. M1:
/// memory ran out.
///
/// Promise: `write` prints just the canonical deck, or its records as lines of JSON.
pub fn write<'f>(alloc: Global, form: Form, opened: &Config) -> Result<Answer<'f>, Refusal>
    ensures { (input : Option Input) → Shows (in_form form input) result
        (written_of (in_form form input) opened.now.records) }
{
    let text = match form {
        Form::Text => canonical_deck(alloc, opened)?,
        Form::Json => record_lines(alloc, opened)?,
    };
    Ok(Answer::Text(text))
}
