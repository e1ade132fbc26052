ghost use Rattle.std.specs.Prelude.{◌≡◌, ◌<◌, [], ◌∷◌, length, IfOk};
ghost use Rattle.std.specs.List.{IsDistinct, AllByRecursion};
ghost use Rattle.std.specs.Map.{keys_of};
ghost use Rattle.std.specs.Ordering.{eq_by_cmp};
ghost use Rattle.std.specs.FinMap.{from_entries};
ghost use Rattle.iocm_types.specs.Place.{place_cmp};
ghost use Rattle.iocm_numbers.specs.Numbered.{HasNoNumberTwice};
ghost use Rattle.iocm_numbers.specs.TiedTables.{cells_in, all_words, AreNotedToo};

use crate::Numbers;
use crate::bits::{clear_words, set_bit};
use crate::numbers::{ALL_WORDS, bit_of, cell_of};
use iocm_table::Table;
use iocm_types::{DevNo, NumberCell, Place};
use std::alloc::{AllocError, Allocator};

impl<A: Allocator + Copy> Numbers<A> {
    /// The numbers of these rows, each a place with its number: no place comes twice, and no number
    /// in a channel subsystem and set. The time is in proportion to the number of rows where they
    /// stand in the order of places and of number cells, and else to that of sorting them.
    ///
    /// `AllocError` (M1): memory ran out.
    pub fn from_rows<B: Allocator>(alloc: A, rows: Vec<(Place, u16), B>) -> Result<Self, AllocError>
        requires places { IsDistinct (eq_by_cmp place_cmp) (keys_of rows.items) }
        requires apart { HasNoNumberTwice (from_entries rows.items) }
        ensures { IfOk result (λ n. n.numbers ≡ from_entries rows.items) }
    {
        let mut words = clear_words(alloc, ALL_WORDS)?;
        note_rows(&mut words, rows.as_slice());
        let listed = list_cells(alloc, rows.as_slice())?;
        let cells = Table::from_rows(alloc, listed)?;
        let places = Table::from_rows(alloc, rows)?;
        Ok(Numbers {
            places,
            cells,
            words,
        })
    }
}

/// Notes the numbers of these rows, beside those that are noted.
fn note_rows(words: &mut [u64], rows: &[(Place, u16)])
    requires { length words.old ≡ all_words }
    ensures bits { AreNotedToo rows.now words.old words.new }
    ensures small { AllByRecursion (λ row. row.0.device < 65536) rows.now }
    ensures len { length words.new ≡ length words.old }
{
    for row in rows {
        note_row(words, row);
    }
}

/// Notes the number of a row.
fn note_row(words: &mut [u64], row: &(Place, u16))
    requires { length words.old ≡ all_words }
    ensures bits { AreNotedToo (row.now ∷ []) words.old words.new }
    ensures small { row.now.0.device < 65536 }
    ensures len { length words.new ≡ length words.old }
{
    // For the proof alone: a device number has 16 bits.
    let _device = row.0.device.number();
    set_bit(words, bit_of(cell_of(&row.0, row.1)));
}

/// The number cell of each row, with its device.
pub(crate) fn list_cells<B: Allocator>(
    alloc: B,
    rows: &[(Place, u16)],
) -> Result<Vec<(NumberCell, DevNo), B>, AllocError>
    ensures { IfOk result (λ cells. cells.items ≡ cells_in rows.now) }
{
    let mut cells = Vec::with_capacity(alloc, rows.len())?;
    for row in rows {
        cells.push((cell_of(&row.0, row.1), row.0.device))?;
    }
    Ok(cells)
}
