ghost use Rattle.std.specs.Prelude.{◌≡◌};
ghost use Rattle.std.specs.Option.{option_map};
ghost use Rattle.iocm_model.specs.Machine.Configuration.{lookup_of, as_image};
ghost use Rattle.iocm_model.specs.Machine.Record.{ImageRecord};
ghost use Rattle.iocm_derive.specs.Derived.{name_at};

use iocm_config::{Config, RecordWalk};
use iocm_record::{Record, RecordBody};
use iocm_types::{Image, Key, Name};
use std::alloc::Allocator;
use std::marker::Model;

/// The images of a configuration, asked for their names one after the other: the image behind the
/// last one is found without a search. Contracts see the configuration.
#[derive(Drop)]
pub struct ImageNames<'a, A: Allocator> {
    records: RecordWalk<'a, A>,
}

impl<'a, A: Allocator> Model for ImageNames<'a, A> {
    ghost use Rattle.std.specs.FinMap as map;
    ghost use Rattle.std.specs.Coded.{codes};
    ghost use Rattle.iocm_model.specs.Machine.Configuration.{Configuration};

    ghost Value = { Configuration };

    ghost coded = { map.code (Prim.hlevel codes) (Prim.hlevel codes) };

    ghost view = { λ s. s.records };
}

impl<'a, A: Allocator> ImageNames<'a, A> {
    /// The images of a configuration.
    pub fn new(config: &'a Config<A>) -> Self
        ensures { result ≡ config.entry.now.records }
    {
        ImageNames {
            records: RecordWalk::new(config),
        }
    }

    /// The name of an image, if it is there.
    pub fn name(&mut self, image: &Image) -> Option<Name>
        ensures name { result ≡ name_at (lookup_of self.old) image.now }
        ensures same { self.new ≡ self.old }
    {
        name_in(self.records.find(&Key::Image(image.css, image.mif))?)
    }
}

/// The name in a record, if it is that of an image.
fn name_in<A: Allocator>(entry: &Record<A>) -> Option<Name>
    ensures { result ≡ option_map (λ (i : ImageRecord). i.name) (as_image entry.now) }
{
    match entry.body() {
        RecordBody::Image(_, _, name) => Some(*name),
        _ => None,
    }
}
