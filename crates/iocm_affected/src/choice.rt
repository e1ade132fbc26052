ghost use Rattle.std.specs.Prelude.{◌≡◌};
ghost use Rattle.std.specs.Option.{option_copied};
ghost use Rattle.iocm_model.specs.Machine.Sight.{record_lists};
ghost use Rattle.iocm_affected.specs.Listing as listing;

use iocm_derive::lists_image;
use iocm_record::Record;
use iocm_types::{Css, Name};
use std::alloc::Allocator;

/// A choice of images, by their channel subsystems and their names.
pub(crate) trait Choice {
    ghost chosen: { Self → listing.Choice };

    /// Whether the image of a name in a channel subsystem is chosen.
    fn has(&self, css: Css, name: Name) -> bool
        ensures { result ≡ chosen self.now css name };
}

/// All images.
#[derive(Clone, Copy)]
pub(crate) struct AllImages;

impl Choice for AllImages {
    ghost use Rattle.iocm_affected.specs.Listing.{all_images};

    ghost chosen = { λ _. all_images };

    fn has(&self, _css: Css, _name: Name) -> bool {
        true
    }
}

/// The image of a name in a channel subsystem.
#[derive(Clone, Copy)]
pub(crate) struct ImageNamed {
    pub css: Css,
    pub name: Name,
}

impl Choice for ImageNamed {
    ghost use Rattle.iocm_affected.specs.Listing.{image_named};

    ghost chosen = { λ i. image_named i.css i.name };

    fn has(&self, css: Css, name: Name) -> bool {
        css == self.css && self.name == name
    }
}

/// The images in a channel subsystem that one of two records of a path lists, and the other
/// doesn't.
#[derive(Drop)]
pub(crate) struct ListedOtherwise<'a, A: Allocator> {
    pub css: Css,
    pub before: Option<&'a Record<A>>,
    pub after: Option<&'a Record<A>>,
}

impl<'a, A: Allocator> Choice for ListedOtherwise<'a, A> {
    ghost use Rattle.std.specs.Option.{option_copied};
    ghost use Rattle.iocm_affected.specs.Listing.{listed_otherwise};

    ghost chosen = { λ l. listed_otherwise l.css (option_copied l.before) (option_copied l.after) };

    fn has(&self, css: Css, name: Name) -> bool {
        css == self.css && is_one_alone(lists(self.before, name), lists(self.after, name))
    }
}

/// Whether there is a record that is of a path and lists a name.
fn lists<A: Allocator>(entry: Option<&Record<A>>, name: Name) -> bool
    ensures { result ≡ record_lists name (option_copied entry.entry) }
{
    match entry {
        Some(entry) => lists_image(entry, name),
        None => false,
    }
}

/// Whether one of two things is so, and the other isn't.
fn is_one_alone(one: bool, other: bool) -> bool
    ensures { result ≡ listing.is_one_alone one other }
{
    one != other
}
