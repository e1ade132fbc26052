ghost use Rattle.std.specs.Prelude.{◌≡◌, IfOk, Option};
ghost use Rattle.iocm_lines.specs.declared.refused.Input.{Input};
ghost use Rattle.iocm_console.specs.Opening.{configuration_in};
ghost use Rattle.iocm_answer.specs.Answer.{Shows};
ghost use Rattle.iocm_answer.specs.Manner.{in_form};
ghost use Rattle.iocm_answer.specs.Census.{census_of};
ghost use Rattle.iocm_answer.specs.Commands.Check as meaning;

use crate::{Answer, Census};
use iocm_breaches::all_breaches;
use iocm_config::Config;
use iocm_console::{Refusal, read_config};
use iocm_lines::Form;
use iocm_origin::all_faults;
use iocm_types::{Fault, Rule};
use std::alloc::Global;

/// `check`: that a deck which was opened is accepted, and how much it has. Can't run out of memory.
///
/// Promise: `check` says just how many records an accepted deck has.
pub fn check<'f>(opened: &Config) -> Answer<'f>
    ensures { result ≡ Answer.Accepted (census_of opened.now.records) }
{
    Answer::Accepted(Census::of(opened))
}

/// `check --all`, to be printed in a form: that a deck is accepted, and how much it has; or all rules
/// that it breaks, by rule and then by key. A deck that can't be read is refused by its first fault, and
/// in lines of JSON by the fault of each statement. M1: memory ran out.
///
/// Promise: `check --all` lists just the breaches of the rules.
pub fn check_all<'f>(alloc: Global, form: Form, deck: &[u8]) -> Result<Answer<'f>, Refusal>
    ensures text { (input : Option Input) → Shows (in_form form input) result
        (meaning.all_checked (in_form form input) deck.now) }
    ensures answer { IfOk result (meaning.IsAllChecked (configuration_in deck.now)) }
{
    let config = match read_config(alloc, deck) {
        Ok(config) => config,
        Err(fault) if fault.rule == Rule::M1 => return Err(Refusal::NO_MEMORY),
        Err(fault) => return refuse_unread(alloc, form, deck, fault),
    };
    let breaches = all_breaches(alloc, &config)?;
    if breaches.is_empty() {
        return Ok(check(&config));
    }
    Ok(Answer::Breaches(breaches))
}

/// What is said, in a form, of a deck that has this first fault: in lines of JSON that of each statement
/// which has one. M1: memory ran out.
fn refuse_unread<'f>(
    alloc: Global,
    form: Form,
    deck: &[u8],
    first: Fault,
) -> Result<Answer<'f>, Refusal>
    ensures text { (input : Option Input) → Shows (in_form form input) result
        (meaning.unread (in_form form input) deck.now first) }
    ensures answer { IfOk result meaning.TellsFaults }
{
    match form {
        Form::Text => Err(Refusal::from(first)),
        Form::Json => {
            let faults = all_faults(alloc, deck)?;
            if faults.is_empty() {
                return Err(Refusal::from(first));
            }
            Ok(Answer::Faults(faults))
        }
    }
}
