//! Single lines in a form: a refusal, counts, and the answer to a line of a script.
ghost use Rattle.std.specs.Prelude.{◌≡◌};
ghost use Rattle.iocm_console.specs.Output.{Writes};
ghost use Rattle.iocm_lines.specs.Refused.{told};
ghost use Rattle.iocm_answer.specs.Manner as meaning;

use crate::Manner;
use crate::answer_text::AnswerText;
use iocm_console::{About, ConsoleError, Output, Refusal};
use iocm_lines::{AcceptedLine, AnswerLine, Form, Input, RefusedLine, TraceLine, title_of};
use iocm_operation::Answered;
use iocm_types::{Answer, At};
use std::fmt;
use std::io::Write;

/// Writes the line of a refusal. Can't run out of memory.
pub fn write_refusal<W: Write + Drop>(
    manner: Manner,
    why: Refusal,
    output: &mut Output<W>,
) -> Result<(), ConsoleError>
    ensures { Writes W.contents result output.old output.new (meaning.refusal_in manner why) }
{
    match manner.form {
        Form::Text => output.refusal(why),
        Form::Json => output.line(told_line(manner.input, why)),
    }
}

/// What the line of a refusal tells, of the text where it came.
fn told_line(input: Option<Input>, why: Refusal) -> RefusedLine<'static>
    ensures { told result ≡ meaning.told_of input why }
{
    RefusedLine {
        number: why.number,
        input,
        line: named_line(why.about),
        node: why.node,
        about: named_at(why.about),
        title: title_of(why.number),
    }
}

/// The line of a text that a refusal names.
fn named_line(about: About) -> Option<usize>
    ensures { result ≡ meaning.named_line about }
{
    match about {
        About::Line(number) => Some(number),
        _ => None,
    }
}

/// What a refusal is about beside a line.
fn named_at(about: About) -> At
    ensures { result ≡ meaning.named_at about }
{
    match about {
        About::Key(key) => At::Key(key),
        About::Subchannel(subchannel) => At::Subchannel(subchannel),
        About::Change(number) => At::Change(number),
        _ => At::Nothing,
    }
}

/// Writes how many records an accepted deck has. Can't run out of memory.
pub fn write_accepted<W: Write + Drop>(
    form: Form,
    records: usize,
    output: &mut Output<W>,
) -> Result<(), ConsoleError>
    ensures { Writes W.contents result output.old output.new (meaning.accepted_in form records) }
{
    match form {
        Form::Text => output.accepted(records),
        Form::Json => output.line(AcceptedLine(records)),
    }
}

/// How many calls were made, as it is printed.
#[derive(Clone, Copy)]
struct CallsText(usize);

impl fmt::Display for CallsText {
    ghost use Rattle.std.specs.Prelude.{Some, codes, ◌++◌};
    ghost use Rattle.std.specs.Fmt.{decimal};

    ghost output = { λ t. Some (codes "trace " ++ decimal t.0) };

    fn fmt<W: fmt::Write>(&self, f: &mut fmt::Formatter<W>) -> fmt::Result {
        let calls = self.0;
        write!(f, "trace {calls}")
    }
}

/// Writes how many calls were made. Can't run out of memory.
pub fn write_trace<W: Write + Drop>(
    form: Form,
    calls: usize,
    output: &mut Output<W>,
) -> Result<(), ConsoleError>
    ensures { Writes W.contents result output.old output.new (meaning.trace_in form calls) }
{
    match form {
        Form::Text => output.line(CallsText(calls)),
        Form::Json => output.line(TraceLine(calls)),
    }
}

/// An answer as it is printed, after the number of its line, without the end of the line.
#[derive(Clone, Copy)]
struct NumberedText(Answered);

impl fmt::Display for NumberedText {
    ghost use Rattle.std.specs.Prelude.{Some};
    ghost use Rattle.iocm_answer.specs.AnswerText.{numbered_text};

    ghost output = { λ a. Some (numbered_text a.0.line a.0.answer) };

    fn fmt<W: fmt::Write>(&self, f: &mut fmt::Formatter<W>) -> fmt::Result {
        let line = self.0.line;
        let answer = AnswerText(self.0.answer);
        write!(f, "{line} {answer}")
    }
}

/// Writes an answer with the number of its line. Can't run out of memory.
pub fn write_answered<W: Write + Drop>(
    form: Form,
    answered: Answered,
    output: &mut Output<W>,
) -> Result<(), ConsoleError>
    ensures { Writes W.contents result output.old output.new
        (meaning.answered_in form answered.line answered.answer) }
{
    match form {
        Form::Text => output.line(NumberedText(answered)),
        Form::Json => output.line(AnswerLine {
            line: answered.line,
            answer: answered.answer,
            title: title_in(&answered.answer),
        }),
    }
}

/// The title of the refusal that an answer is, if it is one.
fn title_in(answer: &Answer) -> &'static str
    ensures { result.now ≡ meaning.title_in answer.now }
{
    match answer {
        Answer::Refused(why) => title_of(why.rule),
        _ => "",
    }
}
