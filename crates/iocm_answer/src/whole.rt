//! A whole command: from readers to a writer. Each text is read to its end by at most `limit` reads, and
//! what comes of them is printed.
//!
//! L5 (`ConsoleError::Read`): a read failed, or none of `limit` reads gave the end; nothing is printed
//! then. A command opens its deck before it reads another text: a deck that is refused is refused
//! whatever comes after it. L6 (`ConsoleError::Write`): a write failed; what is written up to there
//! is not said. All other faults, lack of memory (M1) too, are refusals, which are printed.
ghost use Rattle.std.specs.Prelude.{◌≡◌, List, All, map, IfErr, IfOk, Err, false};
ghost use Rattle.iocm_columns.specs.Device.{IsWhole};
ghost use Rattle.iocm_columns.specs.declared.device.Device as its_device;
ghost use Rattle.iocm_console.specs.Output.{has_failed};
ghost use Rattle.iocm_answer.specs.Commands.{HasDeck, IsMeant};
ghost use Rattle.iocm_answer.specs.Whole as meaning;
ghost use Rattle.iocm_answer.specs.Whole.{Answers, AreReadWithin, AreTextsOf, Ends, IsReadWithin, IsReady, IsTextOf};
ghost use Rattle.iocm_answer.specs.Whole.{IsUnreadFor, OfText, OfTexts, OneStopsWithin, StopsAt, StopsFor, StopsWithin};
ghost use Rattle.iocm_answer.specs.Whole.{Tells};

use crate::{Answer, Manner, begin, finish, print};
use iocm_columns::Device;
use iocm_command::Command;
use iocm_console::{ConsoleError, Output, Refusal, Status};
use iocm_types::{Fault, Rule};
use std::alloc::Global;
use std::io::{Read, Write};
use std::sync::Wait;
use std::thread::Threads;

/// A command on its deck and on the texts after it, which are read: those after the deck if the command
/// goes on from it.
///
/// All is printed in this manner.
///
/// L5: the deck can't be read, or the command goes on from it and one of the others can't be read. L6:
/// a write failed. M1 is printed if memory ran out.
///
/// Promise: a whole command prints what its definition says of the bytes that it reads, or M1.
pub fn carry_out<R: Read, W: Write + Drop, T: Threads + Wait + Sync>(
    rt: &T,
    alloc: Global,
    manner: Manner,
    command: &Command<'_>,
    deck: &mut Device<R>,
    others: &mut [Device<R>],
    limit: u64,
    output: &mut Output<W>,
) -> Result<Status, ConsoleError>
    requires deck { HasDeck command.now }
    requires ready { IsReady limit deck.old }
    requires ready_others { All (λ (d : its_device.Device R). IsReady limit d) others.old }
    requires works { has_failed output.old ≡ false }
    ensures { Answers R.remaining W.contents limit manner command.entry.now deck.old deck.new others.old others.new
        output.old output.new result }
{
    let given = read_answered(rt, alloc, manner, command, deck, others, limit);
    say(manner, given, output)
}

/// Why the texts of a command give no answer.
#[derive(Clone, Copy, PartialEq, Eq)]
enum Unanswered {
    /// A text can't be read to its end.
    Unread,
    /// A text is refused, or a change isn't made, or memory is missing.
    Refused(Refusal),
}

/// A text isn't read: memory is missing, or it can't be read to its end.
impl From<Fault> for Unanswered {
    ghost use Rattle.std.specs.Prelude.{◌≡◌};
    ghost use Rattle.iocm_answer.specs.Whole.{unread_by};

    ghost from_gives = { λ fault u. u ≡ unread_by fault };

    fn from(fault: Fault) -> Unanswered {
        match fault.rule {
            Rule::M1 => Unanswered::Refused(Refusal::NO_MEMORY),
            _ => Unanswered::Unread,
        }
    }
}

impl From<Refusal> for Unanswered {
    ghost use Rattle.std.specs.Prelude.{◌≡◌};
    ghost use Rattle.iocm_answer.specs.declared.whole.Unanswered.TheVariants.{Refused};

    ghost from_gives = { λ why u. u ≡ Refused why };

    fn from(why: Refusal) -> Unanswered {
        Unanswered::Refused(why)
    }
}

/// Prints what comes of texts: an answer, or a refusal; nothing if a text can't be read.
fn say<W: Write + Drop>(
    manner: Manner,
    given: Result<Answer<'_>, Unanswered>,
    output: &mut Output<W>,
) -> Result<Status, ConsoleError>
    requires works { has_failed output.old ≡ false }
    ensures text { IfOk result (meaning.SaysGiven manner W.contents output.old output.new given.entry) }
    ensures unread { IsUnreadFor output.old output.new result (given.entry ≡ Err Unanswered.Unread) }
    ensures ends { Ends output.new result }
{
    match given {
        Ok(answer) => print(manner, &Ok(answer), output),
        Err(Unanswered::Refused(why)) => print(manner, &Err(why), output),
        Err(Unanswered::Unread) => Err(ConsoleError::Read),
    }
}

/// The bytes of a text, which is read to its end by at most `limit` reads.
fn read_text<R: Read>(
    alloc: Global,
    device: &mut Device<R>,
    limit: u64,
) -> Result<Vec<u8>, Unanswered>
    requires { IsReady limit device.old }
    ensures text { IfOk result (λ v. IsTextOf R.remaining device.old v.items × IsWhole device.new) }
    ensures reads { IsReadWithin limit device.old device.new }
    ensures stops { IfErr result (StopsFor ⊥ (StopsWithin limit device.old device.new)) }
{
    Ok(device.read_to_end(alloc, limit)?)
}

/// The bytes of several texts, each of which is read to its end by at most `limit` reads, one after the
/// other.
fn read_texts<R: Read>(
    alloc: Global,
    devices: &mut [Device<R>],
    limit: u64,
) -> Result<Vec<Vec<u8>>, Unanswered>
    requires { All (λ (d : its_device.Device R). IsReady limit d) devices.old }
    ensures texts { IfOk result (λ v. AreTextsOf R.remaining devices.old (map (λ t. t.items) v.items)) }
    ensures whole { IfOk result (λ v. All IsWhole devices.new) }
    ensures reads { AreReadWithin limit devices.old devices.new }
    ensures stops { IfErr result (StopsFor ⊥ (OneStopsWithin limit devices.old devices.new)) }
{
    let mut texts = Vec::new(alloc);
    for place in 0..devices.len() {
        let text = read_text(alloc, &mut devices[place], limit)?;
        let Ok(()) = texts.push(text) else {
            return Err(Unanswered::Refused(Refusal::NO_MEMORY));
        };
    }
    Ok(texts)
}

/// An answer that is given, or a refusal.
fn given_of<'f>(said: Result<Answer<'f>, Refusal>) -> Result<Answer<'f>, Unanswered>
    ensures { result ≡ meaning.given_of said.entry }
{
    match said {
        Ok(answer) => Ok(answer),
        Err(why) => Err(Unanswered::Refused(why)),
    }
}

/// What a command gives of texts that are read.
fn read_answered<'f, R: Read, T: Threads + Wait + Sync>(
    rt: &T,
    alloc: Global,
    manner: Manner,
    command: &'f Command<'_>,
    deck: &mut Device<R>,
    others: &mut [Device<R>],
    limit: u64,
) -> Result<Answer<'f>, Unanswered>
    requires deck { HasDeck command.now }
    requires ready { IsReady limit deck.old }
    requires ready_others { All (λ (d : its_device.Device R). IsReady limit d) others.old }
    ensures text { OfText R.remaining deck.old (λ bytes. Tells manner result (λ shown.
        OfTexts R.remaining others.old (λ texts. IsMeant manner command.entry.now bytes texts shown))) }
    ensures whole { IfOk result (λ answer. IsWhole deck.new) }
    ensures whole_others { IfOk result (λ answer. All IsWhole others.new) }
    ensures reads { IsReadWithin limit deck.old deck.new }
    ensures reads_others { AreReadWithin limit others.old others.new }
    ensures stops { IfErr result (StopsFor (IsWhole deck.new)
        (StopsAt R.remaining limit command.entry.now deck.old deck.new others.old others.new)) }
{
    let bytes = read_text(alloc, deck, limit)?;
    let begun = begin(alloc, command, &bytes)?;
    let texts = read_texts(alloc, others, limit)?;
    given_of(finish(rt, alloc, manner.form, command, begun, &texts))
}
