use crate::device_words::{addresses_from, range_word, seen_word, unlinked_word};
use crate::path_words::text_word;
use iocm_sight::SeenBy;
use iocm_types::{CssPath, DevNo, SetNo, Text, UnitNo};
use iocm_words::{count_word, units_word};
use std::alloc::{AllocError, Global};
use std::marker::Model;

/// A run of devices, as a row of `list devices` has it. Contracts see its lists.
#[derive(Drop)]
pub struct DeviceRow {
    /// The subchannel set of the devices.
    pub set: SetNo,
    /// The number of the first.
    pub first: DevNo,
    /// How many devices there are.
    pub count: usize,
    /// The device type, as UNIT has it.
    pub device_type: Option<Text>,
    /// The control units.
    pub units: Vec<UnitNo>,
    /// The unit address of the first.
    pub unit_address: u8,
    /// The paths, by channel subsystem.
    pub paths: Vec<CssPath>,
    /// The images that see the devices, of those that are asked for.
    pub images: Vec<SeenBy>,
}

impl Model for DeviceRow {
    ghost use Rattle.iocm_list.specs.DeviceRows.{DeviceRow};

    ghost Value = { DeviceRow };

    ghost view = { λ r. record {
      set = r.set;
      first = r.first;
      count = r.count;
      device_type = r.device_type;
      units = r.units.items;
      unit_address = r.unit_address;
      paths = r.paths.items;
      images = r.images.items;
    } };

    ghost use Rattle.iocm_sight.specs.Fits.{AreDevices};

    ghost invariant = { λ r. AreDevices r.first r.unit_address r.count };
}

impl DeviceRow {
    ghost use Rattle.std.specs.Prelude.{◌≡◌, IfOk};
    ghost use Rattle.iocm_words.specs.Table.{cells_of};
    ghost use Rattle.iocm_list.specs.DeviceCells.{device_cells};

    /// The cells of the row, in the order of columns, where there are so many images.
    ///
    /// `AllocError` (M1): memory ran out.
    pub fn cells(&self, alloc: Global, all: usize) -> Result<Vec<Vec<u8>>, AllocError>
        ensures { IfOk result (λ cells. cells_of cells.items ≡ device_cells all self.now) }
    {
        let cells = vec![in alloc;
            range_word(alloc, self.set, self.first, self.count)?,
            count_word(alloc, self.count as u64)?,
            text_word(alloc, &self.device_type)?,
            units_word(alloc, self.units.as_slice())?,
            addresses_from(alloc, self.unit_address, self.count)?,
            unlinked_word(alloc, self.paths.as_slice())?,
            seen_word(alloc, self.images.as_slice(), all)?,
        ]?;
        Ok(cells)
    }
}
