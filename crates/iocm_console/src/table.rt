ghost use Rattle.std.specs.Prelude.{◌≡◌, None, true, IfOk, IfSome};
ghost use Rattle.iocm_filter.specs.Sieves.{IsSieveFor};
ghost use Rattle.iocm_filter.specs.Wanted.{asks_nothing};
ghost use Rattle.iocm_model.specs.Machine.Numbering.{opening};
ghost use Rattle.iocm_model.specs.Machine.Table.{table_of};
ghost use Rattle.iocm_console.specs.Output.{Writes};
ghost use Rattle.iocm_console.specs.Table as meaning;
ghost use Rattle.iocm_console.specs.Table.{table_in, whole_table_in};
ghost use Rattle.iocm_lines.specs.declared.form.Form as lines;

use crate::cells::TableCells;
use crate::lines::write_rows;
use crate::{Output, Written};
use iocm_config::Config;
use iocm_filter::{Filters, Sieve};
use iocm_lines::Form;
use iocm_plant::Plant;
use std::alloc::{AllocError, Global};
use std::io::Write;

/// The table of a configuration's subchannels, of those that are asked for: what it takes to print
/// it without memory, and not its lines.
#[derive(Drop)]
pub struct Table<'f> {
    cells: TableCells,
    sieve: Option<Sieve<'f>>,
}

impl<'f> Table<'f> {
    /// That of a configuration as it is opened.
    ///
    /// `AllocError` (M1): memory ran out.
    pub fn at_opening(
        alloc: Global,
        config: Config,
        filters: &'f Filters,
    ) -> Result<Self, AllocError>
        ensures { IfOk result (λ t. (form : lines.Form) → meaning.text_in form t
            ≡ table_in form filters.entry.now config.records (opening config.records)) }
    {
        let sieve = sieve_if_asked(alloc, filters, &config)?;
        let cells = TableCells::at_opening(alloc, config)?;
        // For the proof alone: an image is found by its place.
        cells.has_own_keys();
        Ok(Table { cells, sieve })
    }

    /// That of a machine in operation, of which all but the configuration is let go.
    ///
    /// `AllocError` (M1): memory ran out.
    pub fn in_operation(
        alloc: Global,
        plant: Plant,
        filters: &'f Filters,
    ) -> Result<Self, AllocError>
        ensures { IfOk result (λ t. (form : lines.Form) → meaning.text_in form t
            ≡ table_in form filters.entry.now plant.state.config plant.state.numbers) }
    {
        let sieve = sieve_if_asked(alloc, filters, plant.config())?;
        let cells = TableCells::in_operation(alloc, plant)?;
        // For the proof alone: an image is found by its place.
        cells.has_own_keys();
        Ok(Table { cells, sieve })
    }

    /// That of all subchannels of a machine in operation.
    ///
    /// `AllocError` (M1): memory ran out.
    pub fn of_all(alloc: Global, plant: Plant) -> Result<Self, AllocError>
        ensures text { IfOk result (λ t. meaning.text_of t ≡ table_of plant.state.config plant.state.numbers) }
        ensures forms { IfOk result (λ t. (form : lines.Form) → meaning.text_in form t
            ≡ whole_table_in form plant.state.config plant.state.numbers) }
    {
        let cells = TableCells::in_operation(alloc, plant)?;
        // For the proof alone: an image is found by its place.
        cells.has_own_keys();
        Ok(Table { cells, sieve: None })
    }
}

/// The sieve of a configuration, if something is asked for.
fn sieve_if_asked<'f>(
    alloc: Global,
    filters: &'f Filters,
    config: &Config,
) -> Result<Option<Sieve<'f>>, AllocError>
    ensures none { IfOk result (λ s. s ≡ None → asks_nothing filters.entry.now ≡ true) }
    ensures some { IfOk result (λ s. IfSome s (IsSieveFor filters.entry.now config.now.records)) }
{
    if filters.is_none() {
        return Ok(None);
    }
    let sieve = Sieve::new(alloc, filters, config)?;
    Ok(Some(sieve))
}

/// Writes a table in a form, image by image: a text with its heading, or lines of JSON. Can't run out
/// of memory.
pub fn write_table<W: Write + Drop>(
    form: Form,
    table: &Table<'_>,
    output: &mut Output<W>,
) -> Written
    ensures { Writes W.contents result output.old output.new (meaning.text_in form table.now) }
{
    write_opening(form, output)?;
    let cells = table.cells.as_slice();
    write_rows(output, form, &table.sieve, table.cells.config(), cells)
}

/// Writes what comes before the rows: the heading of a text.
fn write_opening<W: Write + Drop>(form: Form, output: &mut Output<W>) -> Written
    ensures { Writes W.contents result output.old output.new (meaning.opening_text form) }
{
    match form {
        Form::Text => output.heading(),
        Form::Json => Ok(()),
    }
}
