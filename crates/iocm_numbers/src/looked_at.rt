ghost use Rattle.std.specs.Prelude.{◌≡◌, ◌++◌, IfOk, OnOk};
ghost use Rattle.std.specs.List.{list_any};
ghost use Rattle.std.specs.List.Sorted.{IsStrictlySortedBy};
ghost use Rattle.std.specs.Ordering.{eq_by_cmp};
ghost use Rattle.iocm_types.specs.Place.{cell_cmp};
ghost use Rattle.iocm_types.specs.declared.place.NumberCell as number_cell;
ghost use Rattle.iocm_numbers.specs.LookedAt.{cells_at};

use crate::Numbers;
use crate::numbers::cell_of;
use iocm_types::{NumberCell, Place, sorted_once};
use std::alloc::{AllocError, Allocator};

impl<A: Allocator> Numbers<A> {
    /// Puts the number cells of the numbers at these places after those that are listed, in the
    /// order of the places. A place whose device has no number has none. Where the places change,
    /// subchannels may change at these cells, and at those of the numbers that are given then.
    ///
    /// `AllocError` (M1): memory ran out.
    pub fn list_cells<B: Allocator>(
        &self,
        cells: &mut Vec<NumberCell, B>,
        places: &[Place],
    ) -> Result<(), AllocError>
        ensures { OnOk result (cells.new.items ≡ cells.old.items ++ cells_at self.now.numbers places.now) }
    {
        for place in places {
            if let Some(number) = self.number_of(*place) {
                cells.push(cell_of(place, number))?;
            }
        }
        Ok(())
    }
}

/// The same number cells in order, each once.
///
/// `AllocError` (M1): memory ran out.
pub fn sort_apart<B: Allocator>(cells: Vec<NumberCell, B>) -> Result<Vec<NumberCell, B>, AllocError>
    ensures order { IfOk result (λ sorted. IsStrictlySortedBy cell_cmp sorted.items) }
    ensures same { IfOk result (λ sorted. (c : number_cell.NumberCell)
        → list_any (eq_by_cmp cell_cmp c) sorted.items ≡ list_any (eq_by_cmp cell_cmp c) cells.items) }
{
    sorted_once(cells)
}
