use crate::image_words::image_word;
use iocm_types::{Image, Name};
use iocm_words::{SetNumbers, count_word, numbers_word};
use std::alloc::{AllocError, Global};
use std::marker::Model;

/// An image, as a row of `list images` has it. Contracts see its lists.
#[derive(Drop)]
pub struct ImageRow {
    /// The image.
    pub image: Image,
    /// Its name.
    pub name: Name,
    /// How many paths of its channel subsystem it may use.
    pub paths: u32,
    /// How many of these are online to it.
    pub online: u32,
    /// How many devices it sees.
    pub devices: usize,
    /// How many of these have no path online.
    pub no_path: usize,
    /// How many have one.
    pub one_path: usize,
    /// The subchannel numbers of its channel subsystem, of each set in use.
    pub numbers: Vec<SetNumbers>,
}

impl Model for ImageRow {
    ghost use Rattle.iocm_list.specs.ImageRows.{ImageRow};

    ghost Value = { ImageRow };

    ghost view = { λ r. record {
      image = r.image;
      name = r.name;
      paths = r.paths;
      online = r.online;
      devices = r.devices;
      no_path = r.no_path;
      one_path = r.one_path;
      numbers = r.numbers.items;
    } };
}

impl ImageRow {
    ghost use Rattle.std.specs.Prelude.{◌≡◌, IfOk};
    ghost use Rattle.iocm_words.specs.Table.{cells_of};
    ghost use Rattle.iocm_list.specs.DeviceCells.{image_cells};

    /// The cells of the row, in the order of columns.
    ///
    /// `AllocError` (M1): memory ran out.
    pub fn cells(&self, alloc: Global) -> Result<Vec<Vec<u8>>, AllocError>
        ensures { IfOk result (λ cells. cells_of cells.items ≡ image_cells self.now) }
    {
        let cells = vec![in alloc;
            image_word(alloc, &self.image)?,
            Vec::from_slice(alloc, self.name.as_bytes())?,
            count_word(alloc, u64::from(self.paths))?,
            count_word(alloc, u64::from(self.online))?,
            count_word(alloc, self.devices as u64)?,
            count_word(alloc, self.no_path as u64)?,
            count_word(alloc, self.one_path as u64)?,
            numbers_word(alloc, self.numbers.as_slice())?,
        ]?;
        Ok(cells)
    }
}
