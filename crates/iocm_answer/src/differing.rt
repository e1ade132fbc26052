ghost use Rattle.std.specs.Prelude.{◌≡◌, IfOk, Option, if◌then◌else◌, Some, None, map};
ghost use Rattle.std.specs.Option.{option_map};
ghost use Rattle.iocm_difference.specs.Difference.{difference};
ghost use Rattle.iocm_model.specs.Machine.Configuration as configuration;
ghost use Rattle.iocm_tree.specs.Carried.{bare};
ghost use Rattle.iocm_answer.specs.Answer.{Shows};
ghost use Rattle.iocm_answer.specs.Manner.{in_form};
ghost use Rattle.iocm_lines.specs.declared.refused.Input.{Input};
ghost use Rattle.iocm_answer.specs.Commands.Diff as meaning;

use crate::{Answer, Difference};
use iocm_command::Before;
use iocm_config::Config;
use iocm_console::{Refusal, open_deck};
use iocm_difference::difference;
use iocm_difference_writer::difference_text;
use iocm_lines::Form;
use iocm_record_lines::edit_lines;
use iocm_tree::Edit;
use std::alloc::{AllocError, Global};

/// `diff`: the change deck that leads from an old deck, which was opened, to a new one, with what was
/// there before each run as comments if that is asked for, or a line of JSON for each edit; or why the
/// new deck is refused. Equal
/// configurations have no difference: nothing is printed. M1: memory ran out.
///
/// Promise: `diff` prints just the difference of two decks, or one refusal.
pub fn diff<'f>(
    alloc: Global,
    form: Form,
    before: Before,
    old: &Config,
    new: &[u8],
) -> Result<Answer<'f>, Refusal>
    ensures text { (input : Option Input) → Shows (in_form form input) result
        (meaning.differed_from (in_form form input) before old.now.records new.now) }
    ensures edits { IfOk result (meaning.HasEdits old.now.records new.now) }
{
    let new = open_deck(alloc, new)?;
    Ok(Answer::Difference(difference_of(alloc, form, before, old, &new)?))
}

/// The difference of two configurations, with what was there if that is asked for.
fn difference_of(
    alloc: Global,
    form: Form,
    before: Before,
    old: &Config,
    new: &Config,
) -> Result<Difference, AllocError>
    ensures text { IfOk result
        (λ d. d.text.items ≡ meaning.difference_in form before old.now.records new.now.records) }
    ensures edits { IfOk result
        (λ d. d.edits ≡ meaning.count_between old.now.records new.now.records) }
{
    let actions = difference(alloc, old, new)?;
    let text = told(alloc, form, before, old, &actions)?;
    let edits = actions.as_slice().len();
    Ok(Difference { text, edits })
}

/// What is printed of these edits from an old configuration on.
fn told(
    alloc: Global,
    form: Form,
    before: Before,
    old: &Config,
    edits: &[Edit],
) -> Result<Vec<u8>, AllocError>
    ensures { (d : configuration.Configuration) → edits.now ≡ map bare (difference old.now.records d)
        → IfOk result (λ text. text.items ≡ meaning.difference_in form before old.now.records d) }
{
    match form {
        Form::Text => difference_text(alloc, old_if_shown(before, old), edits),
        Form::Json => edit_lines(alloc, old, edits),
    }
}

/// The old configuration, if what was there is asked for.
fn old_if_shown(before: Before, old: &Config) -> Option<&Config>
    ensures { option_map (λ c. c.now.records) result ≡ meaning.old_if_shown before old.now.records }
{
    match before {
        Before::Shown => Some(old),
        Before::LeftOut => None,
    }
}
