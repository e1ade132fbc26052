ghost use Rattle.std.specs.Prelude.{◌≡◌, Some, is_some};
ghost use Rattle.std.specs.Option.{option_copied, option_map};
ghost use Rattle.iocm_model.specs.Machine.Configuration.{lookup_of};
ghost use Rattle.iocm_model.specs.Machine.View.{device_record};
ghost use Rattle.iocm_record.specs.Meaning.{device_of};
ghost use Rattle.iocm_derive.specs.Derived.{name_at};
ghost use Rattle.iocm_reach.specs.SightedCells.{sighted_cell, seen_there};
ghost use Rattle.iocm_reach.specs.Reached.{image_in};
ghost use Rattle.iocm_reach.specs.Tabled.{IsReachOf};

use crate::{ReachTable, ReachedImage};
use iocm_config::Config;
use iocm_derive::paths_of_device;
use iocm_numbers::Numbers;
use iocm_record::{DeviceFields, RecordBody};
use iocm_types::{DevNo, Image, Key, Mif, Name, NumberCell, Paths, SetNo, View};
use std::alloc::Allocator;
use std::marker::Model;

/// A number cell of a configuration, with what all images of its channel subsystem share there: the
/// device that has the number, and its first eight paths. What an image has of these is in a table.
/// Contracts see the configuration, the cell and the device.
#[derive(Drop)]
pub struct ReachedCell<'a, A: Allocator, B: Allocator> {
    table: &'a ReachTable<B>,
    config: &'a Config<A>,
    cell: NumberCell,
    device: Option<&'a DeviceFields<A>>,
    paths: Paths,
}

impl<'a, A: Allocator, B: Allocator> Model for ReachedCell<'a, A, B> {
    ghost use Rattle.std.specs.Prelude.{refl};
    ghost use Rattle.std.specs.FinMap as map;
    ghost use Rattle.std.specs.Option.{option_copied, option_map};
    ghost use Rattle.std.specs.Coded.{code_by, coded×, codes};
    ghost use Rattle.iocm_types.specs.declared.place.NumberCell as place;
    ghost use Rattle.iocm_model.specs.Machine.Record.{DeviceRecord};
    ghost use Rattle.iocm_model.specs.Machine.Configuration.{Configuration};
    ghost use Rattle.iocm_record.specs.Meaning.{device_of};
    ghost use Rattle.iocm_reach.specs.SightedCells.{SightedCell};
    ghost use Rattle.iocm_reach.specs.Seen.{IsReachedCell};
    ghost use Rattle.std.specs.Prelude as std_words;

    ghost Value = { SightedCell };

    ghost coded = { code_by (Configuration × (place.NumberCell × std_words.Option DeviceRecord))
        (coded× (map.code (Prim.hlevel codes) (Prim.hlevel codes)) (coded× (Prim.hlevel codes) (Prim.hlevel codes)))
        (λ s. (s.records, (s.cell, s.device)))
        (λ p. record { records = p.0; cell = p.1.0; device = p.1.1 })
        (λ _. refl) };

    ghost view = { λ s. record {
      records = s.config.now.records;
      cell = s.cell;
      device = option_map device_of (option_copied s.device);
    } };

    ghost invariant = { λ s. IsReachedCell s.config.now.records s.table.now s.cell
        (option_map device_of (option_copied s.device)) s.paths };
}

impl<'a, A: Allocator, B: Allocator> ReachedCell<'a, A, B> {
    /// A number cell by a configuration, its table and its numbers.
    pub fn new<C: Allocator>(
        table: &'a ReachTable<B>,
        config: &'a Config<A>,
        numbers: &Numbers<C>,
        cell: &NumberCell,
    ) -> Self
        requires { IsReachOf config.now.records table.now }
        ensures { result ≡ sighted_cell config.entry.now.records numbers.now.numbers cell.now }
    {
        let device = match numbers.device_at(*cell) {
            Some(number) => find_device(config, cell.set, number),
            None => None,
        };
        ReachedCell {
            table,
            config,
            cell: *cell,
            device,
            paths: paths_of_device(config, cell.css, device),
        }
    }

    /// The number cell.
    pub fn cell(&self) -> NumberCell
        ensures { result ≡ self.now.cell }
    {
        self.cell
    }

    /// Whether there is a device. Where there is none, no image sees anything.
    pub fn has_device(&self) -> bool
        ensures { result ≡ is_some self.now.device }
    {
        self.device.is_some()
    }

    /// What the image of a MIF image ID, which has this name, sees there, if there is a device and
    /// the image sees it.
    pub fn view(&self, mif: Mif, name: Name) -> Option<View>
        requires { name_at (lookup_of self.now.records) (image_in self.now.cell.css mif) ≡ Some name }
        ensures { result ≡ seen_there self.now name }
    {
        let image = Image {
            css: self.cell.css,
            mif,
        };
        ReachedImage::new(self.table, self.config, image, name).view(self.device?, &self.paths)
    }
}

/// The device of a number in a set, if there is one.
fn find_device<A: Allocator>(
    config: &Config<A>,
    set: SetNo,
    device: DevNo,
) -> Option<&DeviceFields<A>>
    ensures { option_map device_of (option_copied result)
        ≡ device_record (lookup_of config.now.records) set device }
{
    match config.get(&Key::Device(set, device))?.body() {
        RecordBody::Device(fields) => Some(fields),
        _ => None,
    }
}
