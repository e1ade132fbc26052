//! The entries of refusals as they are printed, or the list of all.
ghost use Rattle.std.specs.List.{flat_map};
ghost use Rattle.iocm_console.specs.Output.{Writes};
ghost use Rattle.iocm_explain.specs.Explain.{told, told_below};
ghost use Rattle.iocm_explain.specs.Printed.{entry_lines, heading_line};

use crate::entries::RULES;
use crate::{Explained, Heading, entry_of};
use iocm_console::{ConsoleError, Output};
use iocm_types::Rule;
use std::io::Write;

/// Writes the entries of the refusals that are explained, in their order and with an empty line
/// between; or, if there is none, a line for each refusal: its number and its title. Needs no memory.
///
/// L6 (`ConsoleError::Write`): a write failed; what is written up to there is not said.
///
/// Promise: `explain` prints the entries of the refusals that are named, and lists each refusal once.
pub fn write_explained<W: Write + Drop>(
    explained: &Explained,
    output: &mut Output<W>,
) -> Result<(), ConsoleError>
    ensures { Writes W.contents result output.old output.new (told explained.now.rules.items) }
{
    write_all(&explained.rules, output)
}

/// Writes the entries of these refusals, or a line for each there is if there is none.
fn write_all<W: Write + Drop>(rules: &[Rule], output: &mut Output<W>) -> Result<(), ConsoleError>
    ensures { Writes W.contents result output.old output.new (told rules.now) }
{
    match rules {
        [] => write_headings(&RULES, output),
        [first, rest @ ..] => {
            write_entry(*first, output)?;
            write_below(rest, output)
        }
    }
}

/// Writes the entry of a refusal.
fn write_entry<W: Write + Drop>(rule: Rule, output: &mut Output<W>) -> Result<(), ConsoleError>
    ensures { Writes W.contents result output.old output.new (entry_lines rule) }
{
    output.line(entry_of(rule))
}

/// Writes the entries of these refusals, each below an empty line.
fn write_below<W: Write + Drop>(rules: &[Rule], output: &mut Output<W>) -> Result<(), ConsoleError>
    ensures { Writes W.contents result output.old output.new (flat_map told_below rules.now) }
{
    for rule in rules {
        output.bytes(b"\n")?;
        write_entry(*rule, output)?;
    }
    Ok(())
}

/// Writes the number and the title of each of these refusals, on a line of its own.
fn write_headings<W: Write + Drop>(
    rules: &[Rule],
    output: &mut Output<W>,
) -> Result<(), ConsoleError>
    ensures { Writes W.contents result output.old output.new (flat_map heading_line rules.now) }
{
    for rule in rules {
        write_heading(*rule, output)?;
    }
    Ok(())
}

/// Writes the number and the title of a refusal.
fn write_heading<W: Write + Drop>(rule: Rule, output: &mut Output<W>) -> Result<(), ConsoleError>
    ensures { Writes W.contents result output.old output.new (heading_line rule) }
{
    output.line(Heading(entry_of(rule)))
}
