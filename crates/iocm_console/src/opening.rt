ghost use Rattle.std.specs.Prelude.{IfOk};
ghost use Rattle.iocm_types.specs.Fault.{Gives};
ghost use Rattle.iocm_model.specs.Machine.Configuration.{HasNoKeyTwice};
ghost use Rattle.iocm_console.specs.Opening as meaning;
ghost use Rattle.iocm_console.specs.Refusal.{Decides};

use crate::Refusal;
use iocm_columns::{Joined, join};
use iocm_config::Config;
use iocm_record::Record;
use iocm_record_reader::from_statements;
use iocm_rules::check_at_opening;
use iocm_statements::{Statement, parse};
use iocm_types::Fault;
use std::alloc::Global;

/// The configuration of a deck, which keeps the rules as it is opened; or why the deck is refused:
/// its first fault, or else the first rule that it breaks. M1: memory ran out.
///
/// Promise: a deck is opened exactly if it is read and keeps all rules.
pub fn open_deck(alloc: Global, deck: &[u8]) -> Result<Config, Refusal>
    ensures { Decides (λ c. c.records) result (meaning.opened_deck deck.now) }
{
    let config = read_config(alloc, deck)?;
    match check_at_opening(alloc, &config)? {
        None => Ok(config),
        Some(breach) => Err(Refusal::from(breach)),
    }
}

/// The configuration of a deck, or its first fault.
pub fn read_config(alloc: Global, deck: &[u8]) -> Result<Config, Fault>
    ensures { Gives (λ c. c.records) result (meaning.configuration_in deck.now) }
{
    let records = read_records(alloc, deck)?;
    Ok(Config::from_records(alloc, records)?)
}

/// The records of a deck, no two of one key, or its first fault. The statements are let go.
fn read_records(alloc: Global, deck: &[u8]) -> Result<Vec<Record>, Fault>
    ensures records { Gives (λ v. v.items) result (meaning.records_in deck.now) }
    ensures apart { IfOk result (λ v. HasNoKeyTwice v.items) }
{
    let statements = read_statements(alloc, deck)?;
    from_statements(alloc, &statements)
}

/// The statements of a text, or its first fault. What was joined of its lines is let go.
pub fn read_statements(alloc: Global, text: &[u8]) -> Result<Vec<Statement>, Fault>
    ensures { Gives (λ v. v.items) result (meaning.statements_in text.now) }
{
    let joined: Vec<Joined> = join(alloc, text)?;
    parse(alloc, &joined)
}
