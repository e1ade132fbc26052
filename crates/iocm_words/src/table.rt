ghost use Rattle.std.specs.Prelude.{◌≡◌, ◌++◌, ◌∷◌, drop, map, replicate, IfOk, OnOk};
ghost use Rattle.iocm_words.specs.Table as meaning;
ghost use Rattle.iocm_words.specs.Table.{columns_of, cells_of, rows_of, first_cell};

use std::alloc::{AllocError, Global};

/// The side of its column on which a cell stands.
#[derive(Clone, Copy, PartialEq, Eq)]
pub enum Side {
    /// To the left, as words do.
    Left,
    /// To the right, as counts do.
    Right,
}

/// A column of a table.
#[derive(Clone, Copy)]
pub struct Column {
    /// Its heading, in ASCII.
    pub heading: &'static [u8],
    /// Where its cells stand, and its heading.
    pub side: Side,
}

/// How a column is laid out.
#[derive(Clone, Copy, Drop)]
struct Measure {
    side: Side,
    width: usize,
}

/// The cell of a row in the column of this place; it is empty if the row has fewer.
fn cell_at(row: &[Vec<u8>], place: usize) -> &[u8]
    ensures { result.now ≡ first_cell (drop place (cells_of row.now)) }
{
    match row.get(place) {
        Some(cell) => cell.as_slice(),
        None => &[],
    }
}

/// How wide the column of this place is: as its heading, or as its widest cell.
fn width_at(heading: &[u8], rows: &[Vec<Vec<u8>>], place: usize) -> usize
    ensures { result
        ≡ meaning.widest (heading.now ∷ map (λ row. first_cell (drop place (cells_of row.items))) rows.now) }
{
    let mut width = heading.len();
    for row in rows {
        width = width.max(cell_at(row, place).len());
    }
    width
}

/// How the columns are laid out for these rows.
fn measures(
    alloc: Global,
    columns: &[Column],
    rows: &[Vec<Vec<u8>>],
) -> Result<Vec<Measure>, AllocError>
    ensures { IfOk result (λ measures. measures.items
        ≡ meaning.measures_of (columns_of columns.now) (rows_of rows.now)) }
{
    let mut measures = Vec::new(alloc);
    for (place, column) in columns.iter().enumerate() {
        let width = width_at(column.heading, rows, place);
        measures.push(Measure {
            side: column.side,
            width,
        })?;
    }
    Ok(measures)
}

/// Puts so many blanks behind a text. Answers the lack of memory alone.
pub fn put_blanks(text: &mut Vec<u8>, count: usize) -> Result<(), AllocError>
    ensures { OnOk result (text.new.items ≡ text.old.items ++ replicate count 32) }
{
    for _ in 0..count {
        text.push(b' ')?;
    }
    Ok(())
}

/// Puts a cell behind a text, on its side of its column.
fn put_cell(text: &mut Vec<u8>, measure: Measure, cell: &[u8]) -> Result<(), AllocError>
    ensures { OnOk result (text.new.items ≡ text.old.items ++ meaning.filled measure cell.now) }
{
    let blanks = measure.width.saturating_sub(cell.len());
    match measure.side {
        Side::Left => {
            text.extend_from_slice(cell)?;
            put_blanks(text, blanks)?;
        }
        Side::Right => {
            put_blanks(text, blanks)?;
            text.extend_from_slice(cell)?;
        }
    }
    Ok(())
}

/// The cells of a row in their columns, with two blanks behind each.
fn cells_text(alloc: Global, measures: &[Measure], row: &[Vec<u8>]) -> Result<Vec<u8>, AllocError>
    ensures { IfOk result (λ text. text.items ≡ meaning.cells_text measures.now (cells_of row.now)) }
{
    let mut text = Vec::new(alloc);
    for (place, measure) in measures.iter().enumerate() {
        put_cell(&mut text, *measure, cell_at(row, place))?;
        put_blanks(&mut text, 2)?;
    }
    Ok(text)
}

/// A line without the blanks at its end.
pub fn without_blanks_behind(line: &[u8]) -> &[u8]
    ensures { result.now ≡ meaning.without_blanks_behind line.now }
{
    let mut end = line.len();
    while end > 0 && line[end - 1] == b' ' {
        end -= 1;
    }
    &line[..end]
}

/// Puts the line of a row behind a text.
fn put_line(
    alloc: Global,
    text: &mut Vec<u8>,
    measures: &[Measure],
    row: &[Vec<u8>],
) -> Result<(), AllocError>
    ensures { OnOk result
        (text.new.items ≡ text.old.items ++ meaning.line_text measures.now (cells_of row.now)) }
{
    let cells = cells_text(alloc, measures, row)?;
    text.extend_from_slice(without_blanks_behind(&cells))?;
    text.push(b'\n')?;
    Ok(())
}

/// The headings as a row.
fn heading_row(alloc: Global, columns: &[Column]) -> Result<Vec<Vec<u8>>, AllocError>
    ensures { IfOk result (λ row. cells_of row.items ≡ meaning.heading_row (columns_of columns.now)) }
{
    let mut row = Vec::new(alloc);
    for column in columns {
        row.push(Vec::from_slice(alloc, column.heading)?)?;
    }
    Ok(row)
}

/// The text of a table: a line for its heading, and one for each row. Cells are two blanks apart,
/// and each column is as wide as its widest cell. A cell that is missing is blank, and cells beyond
/// the columns are left out. Answers the lack of memory alone.
pub fn table_text(
    alloc: Global,
    columns: &[Column],
    rows: &[Vec<Vec<u8>>],
) -> Result<Vec<u8>, AllocError>
    ensures { IfOk result (λ text. text.items ≡ meaning.table_text (columns_of columns.now) (rows_of rows.now)) }
{
    let measures = measures(alloc, columns, rows)?;
    let heading = heading_row(alloc, columns)?;
    let mut text = Vec::new(alloc);
    put_line(alloc, &mut text, &measures, &heading)?;
    for row in rows {
        put_line(alloc, &mut text, &measures, row)?;
    }
    Ok(text)
}
