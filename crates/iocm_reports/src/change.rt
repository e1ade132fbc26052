ghost use Rattle.iocm_console.specs.Output.{Writes};
ghost use Rattle.iocm_reports.specs.Change.{change_in};

use iocm_console::{Output, Written};
use iocm_lines::{ChangeLine, Form};
use std::io::Write;

/// Writes that the first change was made, and how many subchannels it altered. Can't run out of
/// memory.
pub fn write_change<W: Write + Drop>(form: Form, altered: usize, output: &mut Output<W>) -> Written
    ensures { Writes W.contents result output.old output.new (change_in form altered) }
{
    match form {
        Form::Text => output.changed(altered),
        Form::Json => output.line(ChangeLine { altered, change: 1 }),
    }
}
