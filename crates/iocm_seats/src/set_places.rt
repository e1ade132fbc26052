ghost use Rattle.std.specs.Prelude.{◌≡◌, OnOk, slice_get};
ghost use Rattle.std.specs.List.{AllByRecursion};
ghost use Rattle.iocm_seats.specs.Seated.{HasPlace, KeepsPlaces};
ghost use Rattle.iocm_seats.specs.Taken.{ends_set, last_subchannel, set_ends};

use crate::Seats;
use crate::taken_cell::TakenCell;
use iocm_types::{Image, Mif, NumberCell, SetNo, SubId};
use std::alloc::{AllocError, Allocator};

/// Gives a place to the last subchannel of each subchannel set, by the number cells of a channel
/// subsystem that are taken, in order. So the memory for the places of a set is asked for once. No
/// seat changes, and no place is lost.
///
/// `AllocError` (M1): memory ran out.
pub(crate) fn make_set_places<'a, A: Allocator, B: Allocator + Clone>(
    seats: &mut Seats<B>,
    cells: &[TakenCell<'a, A>],
) -> Result<(), AllocError>
    ensures seats { seats.new.seats ≡ seats.old.seats }
    ensures ok { OnOk result (AllByRecursion (HasPlace seats.new) (set_ends cells.now)) }
    ensures kept { KeepsPlaces seats.old seats.new }
{
    for place in 0..cells.len() {
        let cell = cells[place].cell();
        if ends_set(cell.set, cells, place + 1) {
            let last = last_subchannel(cell);
            seats.room(last)?;
        }
    }
    Ok(())
}

/// Whether the number cells of a subchannel set end before the one at this place.
fn ends_set<'a, A: Allocator>(set: SetNo, cells: &[TakenCell<'a, A>], next: usize) -> bool
    ensures { result ≡ ends_set set (slice_get cells.now next) }
{
    match cells.get(next) {
        Some(next) => next.cell().set != set,
        None => true,
    }
}

/// The last subchannel at a number cell, that of MIF image ID F.
fn last_subchannel(cell: NumberCell) -> SubId
    ensures { result ≡ last_subchannel cell }
{
    let Some(mif) = Mif::new(15) else {
        unreachable!()
    };
    SubId {
        image: Image { css: cell.css, mif },
        set: cell.set,
        number: cell.number,
    }
}
