ghost use Rattle.std.specs.Prelude.{Some};
ghost use Rattle.std.specs.List.{flat_map};
ghost use Rattle.iocm_console.specs.Output.{Writes};
ghost use Rattle.iocm_reports.specs.Lines.{altered_in, heading_in, lines_by, place_text, row_in, row_lines, signed_line};

use crate::change::write_change;
use iocm_console::{Line, Output, Written, put_line};
use iocm_lines::{Form, JsonLine, put_altered};
use iocm_seats::ViewChange;
use iocm_types::{SubId, View};
use std::fmt;
use std::io::Write;

/// Writes that a change was made and how many subchannels it altered, and rows. As text these are
/// lines under the heading: behind `-` what was seen, behind `+` what is seen now, behind `=` what is
/// the same. As JSON there is a line for each. Can't run out of memory.
pub fn write_altered<W: Write + Drop>(
    form: Form,
    altered: usize,
    rows: &[ViewChange],
    output: &mut Output<W>,
) -> Written
    ensures { Writes W.contents result output.old output.new (altered_in form altered rows.now) }
{
    write_change(form, altered, output)?;
    write_heading(form, output)?;
    write_rows(form, rows, output)
}

/// Writes what comes before rows: the heading of a text.
fn write_heading<W: Write + Drop>(form: Form, output: &mut Output<W>) -> Written
    ensures { Writes W.contents result output.old output.new (heading_in form) }
{
    match form {
        Form::Text => {
            output.bytes(b"  ")?;
            output.heading()
        }
        Form::Json => Ok(()),
    }
}

/// Writes rows in a form.
fn write_rows<W: Write + Drop>(form: Form, rows: &[ViewChange], output: &mut Output<W>) -> Written
    ensures { Writes W.contents result output.old output.new (flat_map (row_in form) rows.now) }
{
    for row in rows {
        write_row(form, row, output)?;
    }
    Ok(())
}

/// Writes a row in a form.
fn write_row<W: Write + Drop>(form: Form, row: &ViewChange, output: &mut Output<W>) -> Written
    ensures { Writes W.contents result output.old output.new (row_in form row.now) }
{
    match form {
        Form::Text => write_lines(row, output),
        Form::Json => write_json(row, output),
    }
}

/// Writes the line of JSON of a row.
fn write_json<W: Write + Drop>(row: &ViewChange, output: &mut Output<W>) -> Written
    ensures { Writes W.contents result output.old output.new (row_in Form.Json row.now) }
{
    let mut line = JsonLine::new();
    put_altered(
        &mut line,
        row.subchannel,
        row.before.as_ref(),
        row.after.as_ref(),
    );
    output.bytes(line.as_slice())
}

/// Writes the lines of text of a row.
#[tactic(auto, unfolding(crate::specs::Lines::row_lines))]
fn write_lines<W: Write + Drop>(row: &ViewChange, output: &mut Output<W>) -> Written
    ensures { Writes W.contents result output.old output.new (row_lines row.now) }
{
    match (&row.before, &row.after) {
        (Some(old), Some(new)) => write_seen(row.subchannel, old, new, output),
        (Some(old), None) => write_signed(b"- ", &row.subchannel, old, output),
        (None, Some(new)) => write_signed(b"+ ", &row.subchannel, new, output),
        (None, None) => output.line(PlaceLine(row.subchannel)),
    }
}

/// Writes the lines of a subchannel at which something was seen and something is.
fn write_seen<W: Write + Drop>(
    subchannel: SubId,
    old: &View,
    new: &View,
    output: &mut Output<W>,
) -> Written
    ensures { Writes W.contents result output.old output.new (lines_by subchannel (Some old.now) (Some new.now)) }
{
    if old == new {
        return write_signed(b"= ", &subchannel, old, output);
    }
    write_signed(b"- ", &subchannel, old, output)?;
    write_signed(b"+ ", &subchannel, new, output)
}

/// Writes the line of a subchannel in the table, behind a sign.
fn write_signed<W: Write + Drop>(
    sign: &[u8],
    subchannel: &SubId,
    view: &View,
    output: &mut Output<W>,
) -> Written
    ensures { Writes W.contents result output.old output.new (signed_line sign.now subchannel.now view.now) }
{
    let mut line = Line::new();
    put_line(&mut line, *subchannel, view);
    output.bytes(sign)?;
    output.bytes(line.as_slice())
}

/// The four numbers of a subchannel at which nothing was seen and nothing is, behind `=`.
#[derive(Clone, Copy)]
struct PlaceLine(SubId);

impl fmt::Display for PlaceLine {
    ghost output = { λ p. Some (place_text p.0) };

    fn fmt<W: fmt::Write>(&self, f: &mut fmt::Formatter<W>) -> fmt::Result {
        let css = self.0.image.css.number();
        let mif = self.0.image.mif.number();
        let set = self.0.set.number();
        let number = self.0.number;
        write!(f, "= {css:<3X} {mif:<2X} {set:<3X} {number:04X}")
    }
}
