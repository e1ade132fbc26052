ghost use Rattle.std.specs.Prelude.{◌≡◌, ◌++◌, ◌∷◌, [], All, IfOk, OnOk};
ghost use Rattle.std.specs.FinMap.{entries};
ghost use Rattle.iocm_model.specs.Machine.Configuration.{IsKeyed, lookup_of};
ghost use Rattle.iocm_model.specs.Machine.Numbering.{cells_of, opening};
ghost use Rattle.iocm_console.specs.Lines.{celled, subchannel_at};
ghost use Rattle.iocm_console.specs.Alike.{AreCompared, IsAlike, devices_of};

use crate::like_devices::{LikeDevice, first_like};
use crate::row::two_numbers;
use iocm_config::Config;
use iocm_numbers::opening_cells;
use iocm_plant::Plant;
use iocm_table::Rows;
use iocm_types::{DevNo, Image, NumberCell, SubId};
use std::alloc::{AllocError, Allocator, Global};
use std::marker::Model;

/// A number cell that is taken, and the device that has it.
#[derive(Clone, Copy, Drop)]
pub(crate) struct CellDevice {
    pub cell: NumberCell,
    pub device: DevNo,
    /// A device of the same set that each image sees by the same paths, or doesn't see either. Of
    /// devices that follow each other it is the first.
    pub like: DevNo,
    /// The number of the cell and that of the device as they are printed, with a blank between.
    pub numbers: [u8; 9],
}

impl CellDevice {
    /// The subchannel of an image at the cell.
    #[inline]
    pub fn subchannel(&self, image: &Image) -> SubId
        ensures { result ≡ subchannel_at image.now self.now.cell }
    {
        SubId {
            image: *image,
            set: self.cell.set,
            number: self.cell.number,
        }
    }
}

/// A configuration and its number cells that are taken, with their devices, in their order. What
/// devices have in common is noted once, for all images that go over them.
#[derive(Drop)]
pub(crate) struct TableCells {
    config: Config,
    cells: Vec<CellDevice>,
}

impl Model for TableCells {
    ghost use Rattle.std.specs.Prelude.{refl, All};
    ghost use Rattle.std.specs.FinMap as map;
    ghost use Rattle.std.specs.Coded.{code_by, coded×, coded_list, codes};
    ghost use Rattle.iocm_model.specs.Machine.Configuration.{Configuration, lookup_of};
    ghost use Rattle.iocm_console.specs.Lines.{CellDevices, Gathered, celled};
    ghost use Rattle.iocm_console.specs.Alike.{IsAlike};

    ghost Value = { Gathered };

    ghost coded = { code_by (Configuration × CellDevices)
        (coded× (map.code (Prim.hlevel codes) (Prim.hlevel codes)) (coded_list (Prim.hlevel codes)))
        (λ t. (t.records, t.cells)) (λ p. record { records = p.0; cells = p.1 }) (λ _. refl) };

    ghost view = { λ t. record { records = t.config.records; cells = celled t.cells.items } };

    ghost invariant = { λ t. All (IsAlike (lookup_of t.config.records)) t.cells.items };
}

impl TableCells {
    /// Those of a configuration as it is opened. No table of the numbers is made.
    ///
    /// `AllocError` (M1): memory ran out.
    pub(crate) fn at_opening(alloc: Global, config: Config) -> Result<Self, AllocError>
        ensures records { IfOk result (λ t. t.records ≡ config.records) }
        ensures cells { IfOk result (λ t. t.cells ≡ entries (cells_of (opening config.records))) }
    {
        let taken = opening_cells(alloc, &config)?;
        let cells = listed_cells(alloc, &config, taken.as_slice())?;
        Ok(TableCells { config, cells })
    }

    /// Those of a machine in operation, of which all but the configuration is let go.
    ///
    /// `AllocError` (M1): memory ran out.
    pub(crate) fn in_operation(alloc: Global, plant: Plant) -> Result<Self, AllocError>
        ensures records { IfOk result (λ t. t.records ≡ plant.state.config) }
        ensures cells { IfOk result (λ t. t.cells ≡ entries (cells_of plant.state.numbers)) }
    {
        let cells = walked_cells(alloc, plant.config(), plant.numbers().cells())?;
        let config = plant.into_config();
        Ok(TableCells { config, cells })
    }

    /// The configuration.
    pub(crate) fn config(&self) -> &Config
        ensures { result.now.records ≡ self.now.records }
    {
        &self.config
    }

    /// Each record of the configuration stands under its own key. It reads nothing, and is there for
    /// callers' proofs.
    pub(crate) fn has_own_keys(&self)
        ensures { IsKeyed self.now.records }
    {
        self.config.has_own_keys();
    }

    /// The cells, each with a device that its own is like.
    pub(crate) fn as_slice(&self) -> &[CellDevice]
        ensures cells { celled result.now ≡ self.now.cells }
        ensures alike { All (IsAlike (lookup_of self.now.records)) result.now }
    {
        self.cells.as_slice()
    }
}

/// The number cells of a walk over a configuration's numbers with their devices, in its order. Each
/// device is looked up once.
fn walked_cells(
    alloc: Global,
    config: &Config,
    taken: Rows<'_, NumberCell, DevNo>,
) -> Result<Vec<CellDevice>, AllocError>
    ensures cells { IfOk result (λ v. celled v.items ≡ taken.entry) }
    ensures alike { IfOk result (λ v. All (IsAlike (lookup_of config.now.records)) v.items) }
{
    let mut cells = Vec::new(alloc);
    let mut last = LikeDevice::first(config);
    for (cell, device) in taken {
        add_compared(&mut cells, &mut last, *cell, *device)?;
    }
    Ok(cells)
}

/// Number cells with their devices, of a list of both.
fn listed_cells(
    alloc: Global,
    config: &Config,
    taken: &[(NumberCell, DevNo)],
) -> Result<Vec<CellDevice>, AllocError>
    ensures cells { IfOk result (λ v. celled v.items ≡ taken.now) }
    ensures alike { IfOk result (λ v. All (IsAlike (lookup_of config.now.records)) v.items) }
{
    let mut cells = Vec::with_capacity(alloc, taken.len())?;
    let mut last = LikeDevice::first(config);
    for row in taken {
        add_compared(&mut cells, &mut last, row.0, row.1)?;
    }
    Ok(cells)
}

/// Puts a number cell with its device, which is compared with one before it, behind others.
fn add_compared<A: Allocator>(
    cells: &mut Vec<CellDevice>,
    last: &mut LikeDevice<'_, A>,
    cell: NumberCell,
    device: DevNo,
) -> Result<(), AllocError>
    requires { AreCompared last.old cells.old.items }
    ensures cells { OnOk result (celled cells.new.items ≡ celled cells.old.items ++ (cell, device) ∷ []) }
    ensures compared { OnOk result (AreCompared last.new cells.new.items) }
    ensures records { devices_of last.new ≡ devices_of last.old }
{
    let like = first_like(last, cell.set, device);
    let numbers = two_numbers(cell.number, device);
    cells.push(CellDevice {
        cell,
        device,
        like,
        numbers,
    })?;
    Ok(())
}
