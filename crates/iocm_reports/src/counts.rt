ghost use Rattle.std.specs.Prelude.{◌≡◌, ◌++◌, ◌∷◌, [], count_by, Some};
ghost use Rattle.std.specs.List.{prefix_len};
ghost use Rattle.iocm_console.specs.Output.{Writes};
ghost use Rattle.iocm_reports.specs.Altered.{AreInOrder};
ghost use Rattle.iocm_reports.specs.Counts as meaning;

use crate::change::write_change;
use iocm_console::{Output, Written};
use iocm_lines::{AlteredCounts, CountLine, Form};
use iocm_seats::ViewChange;
use iocm_types::Image;
use std::fmt;
use std::io::Write;

/// Counts the rows of an image. The time is in proportion to their number.
fn counts_of(image: Image, rows: &[ViewChange]) -> AlteredCounts
    ensures { result ≡ meaning.counts_of image rows.now }
{
    AlteredCounts {
        image,
        gone: count_gone(rows),
        came: count_come(rows),
        changed: count_changed(rows),
        same: count_same(rows),
    }
}

/// How many rows there are where nothing is seen any more.
fn count_gone(rows: &[ViewChange]) -> usize
    ensures { result ≡ count_by meaning.is_gone rows.now }
{
    rows.iter().filter(|row| is_gone(row)).count()
}

/// How many rows there are where nothing was seen.
fn count_come(rows: &[ViewChange]) -> usize
    ensures { result ≡ count_by meaning.has_come rows.now }
{
    rows.iter().filter(|row| has_come(row)).count()
}

/// How many rows there are where something else is seen.
fn count_changed(rows: &[ViewChange]) -> usize
    ensures { result ≡ count_by meaning.has_changed rows.now }
{
    rows.iter().filter(|row| has_changed(row)).count()
}

/// How many rows there are where the same is seen, or nothing.
fn count_same(rows: &[ViewChange]) -> usize
    ensures { result ≡ count_by meaning.is_same rows.now }
{
    rows.iter().filter(|row| is_same(row)).count()
}

/// Something was seen, and nothing is any more.
#[tactic(auto, unfolding(crate::specs::Counts::is_gone))]
fn is_gone(row: &ViewChange) -> bool
    ensures { result ≡ meaning.is_gone row.now }
{
    row.before.is_some() && row.after.is_none()
}

/// Nothing was seen, and now something is.
#[tactic(auto, unfolding(crate::specs::Counts::has_come))]
fn has_come(row: &ViewChange) -> bool
    ensures { result ≡ meaning.has_come row.now }
{
    row.before.is_none() && row.after.is_some()
}

/// Something else is seen than before.
#[tactic(auto, unfolding(crate::specs::Counts::has_changed))]
fn has_changed(row: &ViewChange) -> bool
    ensures { result ≡ meaning.has_changed row.now }
{
    row.before.is_some() && row.after.is_some() && !is_same(row)
}

/// The same is seen as before, or nothing was and is.
#[tactic(auto, unfolding(crate::specs::Counts::is_same))]
fn is_same(row: &ViewChange) -> bool
    ensures { result ≡ meaning.is_same row.now }
{
    row.before == row.after
}

/// The counts of an image as they are printed.
#[derive(Clone, Copy)]
struct CountsLine(AlteredCounts);

impl fmt::Display for CountsLine {
    ghost output = { λ l. Some (meaning.counts_text l.0) };

    fn fmt<W: fmt::Write>(&self, f: &mut fmt::Formatter<W>) -> fmt::Result {
        let css = self.0.image.css;
        let mif = self.0.image.mif;
        let gone = self.0.gone;
        let came = self.0.came;
        let changed = self.0.changed;
        let same = self.0.same;
        write!(
            f,
            "image {css}.{mif} gone {gone} came {came} changed {changed} same {same}"
        )
    }
}

/// Writes that a change was made and how many subchannels it altered, and a line for each image
/// that has rows, in order: how many of its subchannels are gone, came, changed, and are the same.
/// Can't run out of memory.
pub fn write_counted<W: Write + Drop>(
    form: Form,
    altered: usize,
    rows: &[ViewChange],
    output: &mut Output<W>,
) -> Written
    requires order { AreInOrder rows.now }
    ensures { Writes W.contents result output.old output.new (meaning.counted_in form altered rows.now) }
{
    write_change(form, altered, output)?;
    write_counts(form, rows, output)
}

/// Writes a line for each image that has rows. The rows of an image stand together.
fn write_counts<W: Write + Drop>(form: Form, rows: &[ViewChange], output: &mut Output<W>) -> Written
    requires { AreInOrder rows.now }
    ensures { Writes W.contents result output.old output.new (meaning.count_lines form rows.now) }
{
    let mut left = rows;
    while let Some((row, _)) = left.split_first() {
        let (own, others) = left.split_at(rows_in_front(left, row.subchannel.image));
        write_image(form, row.subchannel.image, own, output)?;
        left = others;
    }
    Ok(())
}

/// Writes the line of an image with these rows.
fn write_image<W: Write + Drop>(
    form: Form,
    image: Image,
    own: &[ViewChange],
    output: &mut Output<W>,
) -> Written
    ensures { Writes W.contents result output.old output.new
        (meaning.counts_line form (meaning.counts_of image own.now)) }
{
    let counts = counts_of(image, own);
    match form {
        Form::Text => output.line(CountsLine(counts)),
        Form::Json => output.line(CountLine(counts)),
    }
}

/// How many rows in front are of an image.
fn rows_in_front(rows: &[ViewChange], image: Image) -> usize
    ensures { result ≡ prefix_len (meaning.is_of image) rows.now }
{
    rows.iter()
        .take_while(|row| row.subchannel.image == image)
        .count()
}
