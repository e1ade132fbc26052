//! The one printer: what a command gives, as bytes on an `Output`. It needs no memory.
ghost use Rattle.std.specs.Prelude.{◌≡◌, IfOk, OnOk, IfErr};
ghost use Rattle.iocm_console.specs.Output.{has_failed, FailedToWrite, IsHandedOn, Says, Writes};
ghost use Rattle.iocm_console.specs.Refusal.{of_breach, of_fault};
ghost use Rattle.iocm_answer.specs.Answer as meaning;
ghost use Rattle.iocm_answer.specs.declared.manner.Manner as manners;
ghost use Rattle.iocm_answer.specs.Manner.{refusal_in};

use crate::single::{write_accepted, write_answered, write_refusal, write_trace};
use crate::{Answer, Manner, Ran};
use iocm_console::{ConsoleError, Output, Refusal, Status, write_table};
use iocm_explain::write_explained;
use iocm_operation::Answered;
use iocm_reports::{write_altered, write_change, write_counted};
use iocm_rules::Breach;
use iocm_types::Fault;
use std::io::Write;

/// Prints what a command gives, or its refusal, in a manner, and says how the command ended. Nothing of
/// it is kept back in the program's own buffer. Can't run out of memory.
///
/// L6 (`ConsoleError::Write`): a write failed; what is written up to there is not said.
///
/// Promise: just the text of an answer or of a refusal is printed, or its lines of JSON.
pub fn print<W: Write + Drop>(
    manner: Manner,
    said: &Result<Answer<'_>, Refusal>,
    output: &mut Output<W>,
) -> Result<Status, ConsoleError>
    ensures text { IfOk result (Says W.contents output.old output.new (meaning.printed manner said.now)) }
    ensures works { OnOk result (has_failed output.new ≡ has_failed output.old) }
    ensures handed_on { OnOk result (IsHandedOn output.new) }
    ensures fault { IfErr result (FailedToWrite output.new) }
{
    match said {
        Ok(answer) => write_answer(manner, answer, output)?,
        Err(why) => write_refusal(manner, *why, output)?,
    }
    output.flush()?;
    Ok(status_of(said))
}

/// How a command ended that gave this.
fn status_of(said: &Result<Answer<'_>, Refusal>) -> Status
    ensures { (m : manners.Manner) → result ≡ (meaning.printed m said.now).status }
{
    match said {
        Ok(Answer::Breaches(_) | Answer::Faults(_)) | Err(_) => Status::Refused,
        Ok(_) => Status::Done,
    }
}

/// Writes the text of an answer.
fn write_answer<W: Write + Drop>(
    manner: Manner,
    answer: &Answer<'_>,
    output: &mut Output<W>,
) -> Result<(), ConsoleError>
    ensures { Writes W.contents result output.old output.new (meaning.shown manner answer.now).text }
{
    let form = manner.form;
    match answer {
        Answer::Accepted(census) => write_accepted(form, census.records, output),
        Answer::Breaches(breaches) => write_breaches(manner, breaches, output),
        Answer::Faults(faults) => write_faults(manner, faults, output),
        Answer::Table(table) => write_table(form, table, output),
        Answer::Text(bytes) => output.bytes(bytes),
        Answer::Difference(difference) => output.bytes(&difference.text),
        Answer::Plan(plan) => output.bytes(&plan.text),
        Answer::Changed(altered, table) => {
            write_change(form, *altered, output)?;
            write_table(form, table, output)
        }
        Answer::Altered(asked) => write_altered(form, asked.altered(), asked.rows(), output),
        Answer::Counted(asked) => write_counted(form, asked.altered(), asked.rows(), output),
        Answer::Tried(altered) => write_change(form, *altered, output),
        Answer::Ran(ran) => write_ran(manner, ran, output),
        Answer::Explained(explained) => write_explained(explained, output),
    }
}

/// Writes a line for each of these breaches.
fn write_breaches<W: Write + Drop>(
    manner: Manner,
    breaches: &[Breach],
    output: &mut Output<W>,
) -> Result<(), ConsoleError>
    ensures { Writes W.contents result output.old output.new (meaning.breach_lines manner breaches.now) }
{
    for breach in breaches {
        write_breach(manner, *breach, output)?;
    }
    Ok(())
}

/// Writes the line of a breach.
fn write_breach<W: Write + Drop>(
    manner: Manner,
    breach: Breach,
    output: &mut Output<W>,
) -> Result<(), ConsoleError>
    ensures { Writes W.contents result output.old output.new (refusal_in manner (of_breach breach)) }
{
    write_refusal(manner, Refusal::from(breach), output)
}

/// Writes a line for each of these faults.
fn write_faults<W: Write + Drop>(
    manner: Manner,
    faults: &[Fault],
    output: &mut Output<W>,
) -> Result<(), ConsoleError>
    ensures { Writes W.contents result output.old output.new (meaning.fault_lines manner faults.now) }
{
    for one in faults {
        write_fault(manner, *one, output)?;
    }
    Ok(())
}

/// Writes the line of a fault.
fn write_fault<W: Write + Drop>(
    manner: Manner,
    fault: Fault,
    output: &mut Output<W>,
) -> Result<(), ConsoleError>
    ensures { Writes W.contents result output.old output.new (refusal_in manner (of_fault fault)) }
{
    write_refusal(manner, Refusal::from(fault), output)
}

/// Writes what came of a script: the answers, how many calls were made, and the table.
fn write_ran<W: Write + Drop>(
    manner: Manner,
    ran: &Ran<'_>,
    output: &mut Output<W>,
) -> Result<(), ConsoleError>
    ensures { Writes W.contents result output.old output.new (meaning.shown manner (Answer.Ran ran.now)).text }
{
    write_answers(manner, &ran.answers, output)?;
    write_trace(manner.form, ran.calls, output)?;
    write_table(manner.form, &ran.table, output)
}

/// Writes answers, each with the number of its line.
fn write_answers<W: Write + Drop>(
    manner: Manner,
    answers: &[Answered],
    output: &mut Output<W>,
) -> Result<(), ConsoleError>
    ensures { Writes W.contents result output.old output.new (meaning.answer_lines manner answers.now) }
{
    for answered in answers {
        write_answered(manner.form, *answered, output)?;
    }
    Ok(())
}
