ghost use Rattle.std.specs.Prelude.{◌≡◌, [], ◌∷◌, All, IfOk, IfSome, MatchOption};
ghost use Rattle.std.specs.FinMap.{entries};
ghost use Rattle.iocm_model.specs.Machine.Configuration.{lookup_of};
ghost use Rattle.iocm_model.specs.Machine.Numbering.{cells_of};
ghost use Rattle.iocm_seats.specs.Taken.{cells_in, taken, taken_of, IsTaken};

use crate::taken_cell::TakenCell;
use iocm_config::Config;
use iocm_derive::DeviceWalk;
use iocm_numbers::Numbers;
use iocm_types::{Css, DevNo, NumberCell};
use std::alloc::{AllocError, Allocator};

/// The number cells of a channel subsystem that are taken, with their devices. They stand side by
/// side, and no cell is looked at but these and the next one. Each device is looked up once, for
/// all images.
///
/// `AllocError` (M1): memory ran out.
pub(crate) fn subsystem_cells<'a, A: Allocator, B: Allocator, C: Allocator>(
    alloc: C,
    config: &'a Config<A>,
    numbers: &Numbers<B>,
    css: Css,
) -> Result<Vec<TakenCell<'a, A>, C>, AllocError>
    ensures cells { IfOk result (λ cells. taken_of cells.items
        ≡ cells_in css (entries (cells_of numbers.now.numbers))) }
    ensures devices { IfOk result (λ cells. All (IsTaken (lookup_of config.entry.now.records)) cells.items) }
{
    let mut devices = DeviceWalk::new(config);
    let mut cells = Vec::new(alloc);
    for (cell, device) in numbers.cells_from(css) {
        let Some(taken) = taken_in(&mut devices, css, *cell, *device) else {
            return Ok(cells);
        };
        cells.push(taken)?;
    }
    Ok(cells)
}

/// A number cell that is taken, with its device, if it is of the channel subsystem.
fn taken_in<'a, A: Allocator>(
    devices: &mut DeviceWalk<'a, A>,
    css: Css,
    cell: NumberCell,
    device: DevNo,
) -> Option<TakenCell<'a, A>>
    ensures cell { MatchOption result (cells_in css ((cell, device) ∷ []) ≡ [])
        (λ t. cells_in css ((cell, device) ∷ []) ≡ taken t ∷ []) }
    ensures device { IfSome result (IsTaken (lookup_of devices.old)) }
    ensures same { devices.new ≡ devices.old }
{
    if cell.css != css {
        return None;
    }
    Some(TakenCell::find(devices, cell, device))
}
