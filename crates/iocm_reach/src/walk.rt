ghost use Rattle.std.specs.Prelude.{◌≡◌, Some};
ghost use Rattle.iocm_model.specs.Machine.Configuration.{lookup_of};
ghost use Rattle.iocm_model.specs.Machine.View as model;
ghost use Rattle.iocm_derive.specs.Derived.{name_at};
ghost use Rattle.iocm_reach.specs.Walked.{cell_at, seen_as};
ghost use Rattle.iocm_reach.specs.Tabled.{IsReachOf};

use crate::{ReachTable, ReachedCell};
use iocm_config::Config;
use iocm_derive::ImageNames;
use iocm_numbers::Numbers;
use iocm_types::{Image, Name, NumberCell, SubId, View};
use std::alloc::{Allocator, Global};
use std::marker::Model;

/// The views of many subchannels, asked for one after the other, with the table of the
/// configuration. What all images share at a number cell is looked up once for those that are asked
/// there in a row. Contracts see the configuration and the numbers.
#[derive(Drop)]
pub struct ReachedWalk<'a, A: Allocator, B: Allocator> {
    config: &'a Config<A>,
    numbers: &'a Numbers<B>,
    reach: &'a ReachTable,
    names: ImageNames<'a, A>,
    /// The last image that is there.
    image: Option<NamedImage>,
    /// The number cell that was asked last.
    cell: Option<ReachedCell<'a, A, Global>>,
}

/// An image with its name.
#[derive(Drop)]
struct NamedImage {
    image: Image,
    name: Name,
}

impl<'a, A: Allocator, B: Allocator> Model for ReachedWalk<'a, A, B> {
    ghost use Rattle.std.specs.Prelude.{refl};
    ghost use Rattle.std.specs.FinMap as map;
    ghost use Rattle.std.specs.Coded.{code_by, coded×, coded_ℕ, codes};
    ghost use Rattle.iocm_model.specs.Machine.Configuration.{Configuration};
    ghost use Rattle.iocm_model.specs.Machine.Numbering.{Numbering};
    ghost use Rattle.iocm_reach.specs.Walked.{Walked};
    ghost use Rattle.iocm_reach.specs.Tabled.{IsReachOf};
    ghost use Rattle.iocm_reach.specs.Walking.{IsWalking};

    ghost Value = { Walked };

    ghost coded = { code_by (Configuration × Numbering)
        (coded× (map.code (Prim.hlevel codes) (Prim.hlevel codes)) (map.code (Prim.hlevel codes) coded_ℕ))
        (λ w. (w.records, w.numbers)) (λ p. record { records = p.0; numbers = p.1 }) (λ _. refl) };

    ghost view = { λ w. record { records = w.config.now.records; numbers = w.numbers.now.numbers } };

    ghost invariant = { λ w. IsWalking w.config.now.records w.numbers.now.numbers w.names w.image w.cell
        × IsReachOf w.config.now.records w.reach.now };
}

impl<'a, A: Allocator, B: Allocator> ReachedWalk<'a, A, B> {
    /// The subchannels of a machine, before the first is asked.
    pub fn new(config: &'a Config<A>, numbers: &'a Numbers<B>, reach: &'a ReachTable) -> Self
        requires { IsReachOf config.now.records reach.now }
        ensures { result ≡ record {
          records = config.entry.now.records;
          numbers = numbers.entry.now.numbers;
        } }
    {
        ReachedWalk {
            config,
            numbers,
            reach,
            names: ImageNames::new(config),
            image: None,
            cell: None,
        }
    }

    /// What an image sees at a subchannel: its view, if the image and the device of the number are
    /// there, and the image sees the device. One after the other, images at the same number cell
    /// are quickly answered.
    pub fn view(&mut self, subchannel: SubId) -> Option<View>
        ensures view { result ≡ model.view_at self.old.records self.old.numbers subchannel }
        ensures same { self.new ≡ self.old }
    {
        // For the proof alone: each record stands under its own key.
        self.config.has_own_keys();
        let name = self.name(&subchannel.image)?;
        self.view_as(name, &subchannel)
    }

    /// The name of an image, if it is there.
    fn name(&mut self, image: &Image) -> Option<Name>
        ensures name { result ≡ name_at (lookup_of self.old.records) image.now }
        ensures same { self.new ≡ self.old }
    {
        if let Some(last) = &self.image {
            if last.image == *image {
                return Some(last.name);
            }
        }
        let name = self.names.name(image)?;
        self.image = Some(NamedImage {
            image: *image,
            name,
        });
        Some(name)
    }

    /// What an image of this name sees at a subchannel.
    fn view_as(&mut self, name: Name, subchannel: &SubId) -> Option<View>
        requires { Some name ≡ name_at (lookup_of self.old.records) subchannel.now.image }
        ensures view { result ≡ seen_as self.old subchannel.now name }
        ensures same { self.new ≡ self.old }
    {
        let cell = cell_of(subchannel);
        if let Some(reached) = &self.cell {
            if reached.cell() == cell {
                return reached.view(subchannel.image.mif, name);
            }
        }
        let reached = ReachedCell::new(self.reach, self.config, self.numbers, &cell);
        let view = reached.view(subchannel.image.mif, name);
        self.cell = Some(reached);
        view
    }
}

/// The number cell of a subchannel.
fn cell_of(subchannel: &SubId) -> NumberCell
    ensures { result ≡ cell_at subchannel.now }
{
    NumberCell {
        css: subchannel.image.css,
        set: subchannel.set,
        number: subchannel.number,
    }
}
