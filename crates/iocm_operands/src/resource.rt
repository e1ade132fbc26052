ghost use Rattle.std.specs.Prelude.{◌≡◌, IfOk, map};
ghost use Rattle.std.specs.List.{filter_map};
ghost use Rattle.iocm_statements.specs.Unread.{Reads};
ghost use Rattle.iocm_values.specs.Value.{seen};
ghost use Rattle.iocm_operands.specs.Resource as meaning;

use iocm_statements::Unread;
use iocm_types::{Css, Mif, Name};
use iocm_values::{CssItem, Value, by_css, hex, set_of_names};
use std::alloc::{AllocError, Global};
use std::marker::Model;

/// An image of the machine. Contracts see the model's record.
#[derive(Clone, Copy)]
pub struct ImageEntry {
    /// Its channel subsystem.
    pub css: Css,
    /// Its MIF image ID there.
    pub mif: Mif,
    /// Its name.
    pub name: Name,
}

impl Model for ImageEntry {
    ghost use Rattle.iocm_model.specs.Machine.Record.{ImageRecord};

    ghost Value = { ImageRecord };

    ghost view = { λ i. record { css = i.css; mif = i.mif; name = i.name } };

    ghost inverse = { λ r. record { css = r.css; mif = r.mif; name = r.name } };
}

/// A place of PARTITION: an image ID of a channel subsystem, and the image's name, if it has one.
#[derive(Clone, Copy)]
pub struct ImagePlace {
    /// The channel subsystem.
    pub css: Css,
    /// The MIF image ID.
    pub mif: Mif,
    /// The image's name; `*` stands for none.
    pub name: Option<Name>,
}

/// A MIF image ID, one digit 1 to F.
pub fn mif_of(text: &[u8]) -> Option<Mif>
    ensures { result ≡ meaning.mif_of text.now }
{
    let mif = hex(15, 1, text)?;
    Mif::new(mif as u8)
}

// The name of an image; `*` stands for none.
fn image_name(text: &[u8]) -> Option<Option<Name>>
    ensures { result ≡ meaning.image_name text.now }
{
    if text == b"*".as_slice() {
        return Some(None);
    }
    let name = Name::new(text)?;
    Some(Some(name))
}

fn image_listed(css: Css, items: &[Value]) -> Option<ImagePlace>
    ensures { result ≡ meaning.image_listed css (map seen items.now) }
{
    match items {
        [Value::Word(name), Value::Word(digit)] => {
            let mif = mif_of(digit)?;
            let name = image_name(name)?;
            Some(ImagePlace { css, mif, name })
        }
        _ => None,
    }
}

fn image_item(alloc: Global, css: Css, value: Value) -> Result<ImagePlace, Unread>
    ensures { Reads (λ p. p) result (meaning.image_item css (seen value.entry)) }
{
    let items = value.items(alloc)?;
    match image_listed(css, &items) {
        Some(place) => Ok(place),
        None => Err(Unread::Malformed),
    }
}

impl CssItem for ImagePlace {
    ghost use Rattle.std.specs.Prelude.{false};
    ghost use Rattle.iocm_operands.specs.declared.resource.ImagePlace.{ImagePlace};
    ghost use Rattle.iocm_operands.specs.Resource as meaning;

    ghost item = { meaning.image_item };

    ghost subsystem = { λ (p : ImagePlace). p.css };

    ghost may_lack = { false };

    fn read(alloc: Global, css: Css, value: Value) -> Result<Self, Unread> {
        image_item(alloc, css, value)
    }

    fn css(&self) -> Css {
        self.css
    }

    fn may_lack_items() -> bool {
        false
    }
}

fn image_at(place: ImagePlace) -> Option<ImageEntry>
    ensures { result ≡ meaning.image_at place }
{
    let name = place.name?;
    Some(ImageEntry {
        css: place.css,
        mif: place.mif,
        name,
    })
}

#[tactic(auto, using(iocm_values::proofs::Filtering::filter_maps))]
fn images_at(alloc: Global, places: &[ImagePlace]) -> Result<Vec<ImageEntry>, AllocError>
    ensures { IfOk result (λ images. images.items ≡ filter_map meaning.image_at places.now) }
{
    let mut images = Vec::new(alloc);
    for place in places {
        match image_at(*place) {
            Some(image) => images.push(image)?,
            None => continue,
        }
    }
    Ok(images)
}

/// The images of PARTITION of RESOURCE, a list by channel subsystem of pairs `(NAME,digit)`, with
/// channel subsystems ascending; `(*,digit)` stands for no image.
pub fn images_of(alloc: Global, value: Value) -> Result<Vec<ImageEntry>, Unread>
    ensures { Reads (λ v. v.items) result (meaning.images_of (seen value.entry)) }
{
    let places: Vec<ImagePlace> = by_css(alloc, value)?;
    Ok(images_at(alloc, &places)?)
}

fn name_in(css: Css, image: ImageEntry) -> Option<Name>
    ensures { result ≡ meaning.name_in css image }
{
    if image.css.number() == css.number() {
        Some(image.name)
    } else {
        None
    }
}

// The names of the images of a channel subsystem, image by image.
#[tactic(auto, using(iocm_values::proofs::Filtering::filter_maps))]
fn listed_in(alloc: Global, css: Css, images: &[ImageEntry]) -> Result<Vec<Name>, AllocError>
    ensures { IfOk result (λ names. names.items ≡ filter_map (meaning.name_in css) images.now) }
{
    let mut names = Vec::new(alloc);
    for image in images {
        match name_in(css, *image) {
            Some(name) => names.push(name)?,
            None => continue,
        }
    }
    Ok(names)
}

/// The names of the images of a channel subsystem, ascending with each once.
#[tactic(auto, using(crate::proofs::Images::those_named))]
pub fn names_in(alloc: Global, css: Css, images: &[ImageEntry]) -> Result<Vec<Name>, AllocError>
    ensures { IfOk result (λ names. names.items ≡ meaning.names_in css images.now) }
{
    let names = listed_in(alloc, css, images)?;
    set_of_names(names)
}
