ghost use Rattle.std.specs.Prelude.{◌≡◌, IfOk};
ghost use Rattle.std.specs.FinMap.{entries};
ghost use Rattle.iocm_model.specs.Machine.Numbering as model;

use crate::build::list_cells;
use crate::first_numbers::opening_rows;
use iocm_config::Config;
use iocm_types::{DevNo, NumberCell};
use std::alloc::{AllocError, Allocator};

/// The number cells that are taken at opening with their devices, in the order of cells. No table of
/// the numbers is made.
///
/// `AllocError` (M1): memory ran out.
pub fn opening_cells<A: Allocator, B: Allocator + Copy>(
    alloc: B,
    config: &Config<A>,
) -> Result<Vec<(NumberCell, DevNo), B>, AllocError>
    ensures { IfOk result (λ cells. cells.items ≡ entries (model.cells_of (model.opening config.now.records))) }
{
    // For the proof alone: each record stands under its own key, so no place comes twice.
    config.has_own_keys();
    let rows = opening_rows(alloc, config)?;
    list_cells(alloc, rows.as_slice())
}
