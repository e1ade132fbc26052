ghost use Rattle.std.specs.Prelude.{◌≡◌, [], ◌∷◌, All, map, fold, Some, IfOk, OnOk};
ghost use Rattle.std.specs.List.{AllByRecursion};
ghost use Rattle.std.specs.FinMap.{entries, from_entries};
ghost use Rattle.iocm_model.specs.Machine.Configuration.{lookup_of};
ghost use Rattle.iocm_model.specs.Machine.Numbering.{cells_of};
ghost use Rattle.iocm_model.specs.Machine.View.{views};
ghost use Rattle.iocm_record.specs.Meaning.{device_of};
ghost use Rattle.iocm_seats.specs.Seated.{fresh_seat};
ghost use Rattle.iocm_seats.specs.Listing.{cell_seats, cells_seats, seats_at, subsystem_seats, with_seat};
ghost use Rattle.iocm_seats.specs.Taken.{taken, taken_of, IsTaken};

use crate::image_subsystems::image_subsystems;
use crate::set_places::make_set_places;
use crate::subsystem_cells::subsystem_cells;
use crate::subsystem_sights::subsystem_sights;
use crate::taken_cell::TakenCell;
use crate::{KeptSeat, Seat, Seats};
use iocm_config::Config;
use iocm_derive::ImageSight;
use iocm_live::fresh;
use iocm_numbers::Numbers;
use iocm_record::DeviceFields;
use iocm_types::{Css, SubId};
use std::alloc::{AllocError, Allocator};

/// A seat for each subchannel that has a view, with a fresh live record. The time is in proportion
/// to the number cells that are taken, and for each to the images of its channel subsystem. Of the
/// cells each channel subsystem looks at its own alone. Each cell is gone over for all images before
/// the next one, since their seats stand side by side.
///
/// `AllocError` (M1): memory ran out.
pub fn open_seats<A: Allocator, B: Allocator, C: Allocator + Clone>(
    alloc: C,
    config: &Config<A>,
    numbers: &Numbers<B>,
) -> Result<Seats<C>, AllocError>
    ensures { IfOk result (λ s. s.seats
        ≡ from_entries (map fresh_seat (views config.now.records numbers.now.numbers))) }
{
    // For the proof alone: each record stands under its own key, so a subchannel has one view.
    config.has_own_keys();
    let subsystems = image_subsystems(alloc.clone()?, config)?;
    let mut seats = Seats::new(alloc.clone()?);
    for css in subsystems.as_slice() {
        open_subsystem(&mut seats, alloc.clone()?, config, numbers, *css)?;
    }
    Ok(seats)
}

/// Gives the subchannels of a channel subsystem their seats. The places of each set are made before
/// that, so memory is asked for once.
///
/// `AllocError` (M1): memory ran out.
fn open_subsystem<A: Allocator, B: Allocator, C: Allocator + Clone>(
    seats: &mut Seats<C>,
    alloc: C,
    config: &Config<A>,
    numbers: &Numbers<B>,
    css: Css,
) -> Result<(), AllocError>
    ensures { OnOk result (seats.new.seats ≡ fold with_seat seats.old.seats
        (subsystem_seats config.now.records (entries (cells_of numbers.now.numbers)) css)) }
{
    let cells = subsystem_cells(alloc.clone()?, config, numbers, css)?;
    make_set_places(seats, cells.as_slice())?;
    let mut sights = subsystem_sights(alloc, config, css)?;
    open_cells(seats, sights.as_mut_slice(), cells.as_slice())?;
    Ok(())
}

/// Gives the subchannels of some images at some number cells their seats.
///
/// `AllocError` (M1): memory ran out.
fn open_cells<'a, A: Allocator, B: Allocator + Clone>(
    seats: &mut Seats<B>,
    sights: &mut [ImageSight<'a, A>],
    cells: &[TakenCell<'a, A>],
) -> Result<(), AllocError>
    requires { All (λ t. AllByRecursion (λ s. IsTaken (lookup_of s.records) t) sights.old) cells.now }
    ensures seats { OnOk result (seats.new.seats
        ≡ fold with_seat seats.old.seats (cells_seats sights.old (taken_of cells.now))) }
    ensures same { OnOk result (sights.new ≡ sights.old) }
{
    for taken in cells {
        open_at(seats, sights, taken)?;
    }
    Ok(())
}

/// Gives the subchannels of some images at a number cell their seats. Where the device isn't there,
/// no image sees it.
///
/// `AllocError` (M1): memory ran out.
fn open_at<'a, A: Allocator, B: Allocator + Clone>(
    seats: &mut Seats<B>,
    sights: &mut [ImageSight<'a, A>],
    at: &TakenCell<'a, A>,
) -> Result<(), AllocError>
    requires { AllByRecursion (λ s. IsTaken (lookup_of s.records) at.now) sights.old }
    ensures seats { OnOk result (seats.new.seats
        ≡ fold with_seat seats.old.seats (cell_seats sights.old (taken at.now))) }
    ensures same { OnOk result (sights.new ≡ sights.old) }
{
    let Some(fields) = at.fields() else {
        return Ok(());
    };
    for place in 0..sights.len() {
        open_cell(seats, &mut sights[place], at, fields)?;
    }
    Ok(())
}

/// Gives the subchannel of an image at a number cell its seat, if the image sees the device there.
/// The fields are the device's.
///
/// `AllocError` (M1): memory ran out.
fn open_cell<'a, A: Allocator, B: Allocator + Clone>(
    seats: &mut Seats<B>,
    sight: &mut ImageSight<'a, A>,
    at: &TakenCell<'a, A>,
    fields: &'a DeviceFields<A>,
) -> Result<(), AllocError>
    requires taken { IsTaken (lookup_of sight.old.records) at.now }
    requires fields { at.now.record_there ≡ Some (device_of fields.now) }
    ensures seats { OnOk result (seats.new.seats ≡ fold with_seat seats.old.seats
        (seats_at (lookup_of sight.old.records) sight.old.image (taken at.now ∷ []))) }
    ensures same { sight.new ≡ sight.old }
{
    let Some(view) = sight.view_of(fields) else {
        return Ok(());
    };
    let cell = at.cell();
    let subchannel = SubId {
        image: sight.image(),
        set: cell.set,
        number: cell.number,
    };
    let live = fresh(view.pim);
    seats.add(subchannel, KeptSeat::new(&Seat { view, live }))
}
