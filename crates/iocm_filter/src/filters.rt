ghost use Rattle.std.specs.Prelude.{◌≡◌};
ghost use Rattle.std.specs.List.{list_any};
ghost use Rattle.iocm_filter.specs.Wanted as meaning;

use crate::{DeviceRange, ImageWord, PathWord};
use iocm_record::{Record, RecordBody};
use iocm_types::{Chpid, Css, DevNo, Image, Name, SetNo, UnitNo, View};
use std::alloc::Allocator;
use std::marker::Model;

/// What is asked for of the subchannels of a table. Of each kind nothing is asked for, or one of
/// what is has to be so. Contracts see the lists.
#[derive(Drop)]
pub struct Filters {
    /// Images.
    pub(crate) images: Vec<ImageWord>,
    /// Devices.
    pub(crate) devices: Vec<DeviceRange>,
    /// Control units that devices are on.
    pub(crate) units: Vec<UnitNo>,
    /// Paths that views have.
    pub(crate) paths: Vec<PathWord>,
    /// How many paths of a view are online at most.
    pub(crate) online: Vec<u8>,
}

impl Model for Filters {
    ghost use Rattle.iocm_filter.specs.Wanted.{Wanted};

    ghost Value = { Wanted };

    ghost view = { λ f. record {
      images = f.images.items;
      devices = f.devices.items;
      units = f.units.items;
      paths = f.paths.items;
      online = f.online.items;
    } };
}

impl Filters {
    /// Whether nothing is asked for.
    pub fn is_none(&self) -> bool
        ensures { result ≡ meaning.asks_nothing self.now }
    {
        self.images.is_empty()
            && self.devices.is_empty()
            && self.units.is_empty()
            && self.paths.is_empty()
            && self.online.is_empty()
    }

    /// The images that are asked for.
    pub fn images(&self) -> &[ImageWord]
        ensures { result.now ≡ self.now.images }
    {
        self.images.as_slice()
    }

    /// The devices that are asked for.
    pub fn devices(&self) -> &[DeviceRange]
        ensures { result.now ≡ self.now.devices }
    {
        self.devices.as_slice()
    }

    /// The control units that are asked for.
    pub fn units(&self) -> &[UnitNo]
        ensures { result.now ≡ self.now.units }
    {
        self.units.as_slice()
    }

    /// How many paths are online at most, as it is asked for.
    pub fn online(&self) -> &[u8]
        ensures { result.now ≡ self.now.online }
    {
        self.online.as_slice()
    }

    /// The paths that are asked for.
    pub fn paths(&self) -> &[PathWord]
        ensures { result.now ≡ self.now.paths }
    {
        self.paths.as_slice()
    }

    /// Whether an image is one of those that are asked for by their places, or none is asked for.
    pub(crate) fn wants_place(&self, image: Image) -> bool
        ensures { result ≡ meaning.one_if_asked (meaning.is_at image) self.now.images }
    {
        self.images.is_empty() || has_place(self.images.as_slice(), image)
    }

    /// Whether a record is that of an image that is asked for by its name, or of a device on a control
    /// unit that is.
    pub(crate) fn look_for<A: Allocator>(&self, entry: &Record<A>) -> bool
        ensures { result ≡ meaning.is_sought self.now entry.now }
    {
        match entry.body() {
            RecordBody::Image(_, _, name) => has_name(self.images.as_slice(), *name),
            RecordBody::Device(fields) => have_common(&self.units, fields.lists.units()),
            _ => false,
        }
    }

    /// Whether a device is one of those that are asked for, or none is.
    pub fn wants_number(&self, set: SetNo, number: DevNo) -> bool
        ensures { result ≡ meaning.one_if_asked (meaning.is_within set number) self.now.devices }
    {
        self.devices.is_empty() || is_in_any(self.devices.as_slice(), set, number)
    }

    /// Whether a view in a channel subsystem has one of the paths that are asked for, and at most as
    /// many paths online as are.
    pub fn wants_view(&self, css: Css, view: &View) -> bool
        ensures { result ≡ meaning.wants_view self.now css view.now }
    {
        self.wants_paths(css, view) && self.wants_online(view)
    }

    fn wants_paths(&self, css: Css, view: &View) -> bool
        ensures { result ≡ meaning.one_if_asked (meaning.has_path css view.now) self.now.paths }
    {
        self.paths.is_empty() || has_any_path(self.paths.as_slice(), css, view)
    }

    /// Whether a view has at most as many paths online as is asked for, or nothing is.
    pub fn wants_online(&self, view: &View) -> bool
        ensures { result ≡ meaning.one_if_asked (meaning.has_at_most view.now) self.now.online }
    {
        self.online.is_empty() || has_at_most_any(self.online.as_slice(), view)
    }
}

fn has_place(words: &[ImageWord], image: Image) -> bool
    ensures { result ≡ list_any (meaning.is_at image) words.now }
{
    words.iter().any(|word| is_at(word, image))
}

/// Whether a word asks for the image at a place, by the place.
pub fn is_at(word: &ImageWord, image: Image) -> bool
    ensures { result ≡ meaning.is_at image word.now }
{
    matches!(word, ImageWord::Place(at) if at.css == image.css && at.mif == image.mif)
}

/// Whether one of these words is this name.
fn has_name(words: &[ImageWord], name: Name) -> bool
    ensures { result ≡ list_any (meaning.is_named name) words.now }
{
    words.iter().any(|word| is_named(word, name))
}

/// Whether a word asks for an image of this name, by the name.
pub fn is_named(word: &ImageWord, own: Name) -> bool
    ensures { result ≡ meaning.is_named own word.now }
{
    matches!(word, ImageWord::Named(name) if *name == own)
}

/// Whether one of these control units is among others.
fn have_common(units: &[UnitNo], others: &[UnitNo]) -> bool
    ensures { result ≡ meaning.have_common units.now others.now }
{
    units.iter().any(|unit| others.contains(unit))
}

fn is_in_any(ranges: &[DeviceRange], set: SetNo, number: DevNo) -> bool
    ensures { result ≡ list_any (meaning.is_within set number) ranges.now }
{
    ranges.iter().any(|range| is_within(range, set, number))
}

/// Whether a range has a device of a subchannel set.
pub fn is_within(range: &DeviceRange, set: SetNo, number: DevNo) -> bool
    ensures { result ≡ meaning.is_within set number range.now }
{
    set == range.set
        && range.first.number() <= number.number()
        && number.number() <= range.last.number()
}

fn has_any_path(words: &[PathWord], css: Css, view: &View) -> bool
    ensures { result ≡ list_any (meaning.has_path css view.now) words.now }
{
    words.iter().any(|word| has_path(word, css, view))
}

fn has_path(word: &PathWord, css: Css, view: &View) -> bool
    ensures { result ≡ meaning.has_path css view.now word.now }
{
    let paths = view.paths.as_slice();
    paths.iter().any(|path| means_path(word, css, *path))
}

/// Whether a word means a path of a channel subsystem.
pub fn means_path(word: &PathWord, css: Css, path: Chpid) -> bool
    ensures { result ≡ meaning.means_path word.now css path }
{
    match word.css {
        Some(own) => css == own && path == word.path,
        None => path == word.path,
    }
}

fn has_at_most_any(most: &[u8], view: &View) -> bool
    ensures { result ≡ list_any (meaning.has_at_most view.now) most.now }
{
    let online = view.pam.bits().count_ones();
    most.iter().any(|number| online <= u32::from(*number))
}
