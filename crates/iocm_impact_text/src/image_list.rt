ghost use Rattle.std.specs.Prelude.{◌≡◌, ◌++◌, map, IfOk, OnOk};
ghost use Rattle.iocm_impact_text.specs.Listed as meaning;

use crate::listed::put_listed;
use iocm_impact::NamedImage;
use iocm_types::{Image, Text};
use std::alloc::{AllocError, Global};

/// The most images that are told by their names.
const MOST_NAMED: usize = 8;

/// Places of images that follow each other in a channel subsystem.
#[derive(Clone, Copy)]
struct PlaceRange {
    first: Image,
    last: Image,
}

/// Puts images behind a text, as `0.1 LPA, 0.2 LPB`; more than eight as `60 images (0.1-0.A, 1.1-1.A)`, or, if they are
/// all, as `all 90 images`.
///
/// `AllocError` (M1): memory ran out.
pub fn put_image_list(
    text: &mut Vec<u8>,
    alloc: Global,
    images: &[NamedImage],
    all: usize,
) -> Result<(), AllocError>
    ensures { OnOk result (text.new.items ≡ text.old.items ++ meaning.images_text all images.now) }
{
    if images.len() <= MOST_NAMED {
        let words = named_words(alloc, images)?;
        put_listed(text, &words)?;
        return Ok(());
    }
    put_many(text, alloc, images, all)?;
    Ok(())
}

/// Puts many images behind a text.
fn put_many(
    text: &mut Vec<u8>,
    alloc: Global,
    images: &[NamedImage],
    all: usize,
) -> Result<(), AllocError>
    ensures { OnOk result (text.new.items ≡ text.old.items ++ meaning.many_text all images.now) }
{
    if images.len() == all {
        let told = format!(in alloc; "all {all} images")?;
        text.extend_from_slice(told.as_bytes())?;
        return Ok(());
    }
    let count = images.len();
    let told = format!(in alloc; "{count} images (")?;
    text.extend_from_slice(told.as_bytes())?;
    let words = place_words(alloc, images)?;
    put_listed(text, &words)?;
    text.push(b')')?;
    Ok(())
}

/// An image by its channel subsystem and its MIF image ID, as `0.1`.
///
/// `AllocError` (M1): memory ran out.
pub fn image_word(alloc: Global, image: &Image) -> Result<Vec<u8>, AllocError>
    ensures { IfOk result (λ word. word.items ≡ meaning.image_word image.now) }
{
    let (css, mif) = (image.css, image.mif);
    let text = format!(in alloc; "{css}.{mif}")?;
    Ok(text.into_bytes())
}

/// An image with its name, as `0.1 LPA`.
fn named_word(alloc: Global, image: &NamedImage) -> Result<Text, AllocError>
    ensures { IfOk result (λ word. word ≡ meaning.named_word image.now) }
{
    let mut word = image_word(alloc, &image.image)?;
    word.push(b' ')?;
    word.extend_from_slice(image.name.as_bytes())?;
    Ok(Text::from_vec(word))
}

fn named_words(alloc: Global, images: &[NamedImage]) -> Result<Vec<Text>, AllocError>
    ensures { IfOk result (λ words. words.items ≡ map meaning.named_word images.now) }
{
    let mut words = Vec::new(alloc);
    for image in images {
        words.push(named_word(alloc, image)?)?;
    }
    Ok(words)
}

/// The words of the ranges of places.
fn place_words(alloc: Global, images: &[NamedImage]) -> Result<Vec<Text>, AllocError>
    ensures { IfOk result (λ words. words.items ≡ map meaning.place_word (meaning.place_ranges images.now)) }
{
    let ranges = place_ranges(alloc, images)?;
    words_of(alloc, &ranges)
}

fn words_of(alloc: Global, ranges: &[PlaceRange]) -> Result<Vec<Text>, AllocError>
    ensures { IfOk result (λ words. words.items ≡ map meaning.place_word ranges.now) }
{
    let mut words = Vec::new(alloc);
    for range in ranges {
        words.push(place_word(alloc, range)?)?;
    }
    Ok(words)
}

/// A range of places, as `0.1-0.A`; one alone, as `0.1`.
fn place_word(alloc: Global, range: &PlaceRange) -> Result<Text, AllocError>
    ensures { IfOk result (λ word. word ≡ meaning.place_word range.now) }
{
    let mut word = image_word(alloc, &range.first)?;
    if range.first.mif != range.last.mif {
        let last = image_word(alloc, &range.last)?;
        word.push(b'-')?;
        word.extend_from_slice(&last)?;
    }
    Ok(Text::from_vec(word))
}

/// The ranges of places of images that stand in the order of keys.
fn place_ranges(alloc: Global, images: &[NamedImage]) -> Result<Vec<PlaceRange>, AllocError>
    ensures { IfOk result (λ ranges. ranges.items ≡ meaning.place_ranges images.now) }
{
    let mut ranges = Vec::new(alloc);
    if let [first, others @ ..] = images {
        put_ranges(&mut ranges, place_alone(first), others)?;
    }
    Ok(ranges)
}

/// Puts a range, made longer by the images that follow it, and the ranges of the others behind those that are there.
fn put_ranges(
    ranges: &mut Vec<PlaceRange>,
    first: PlaceRange,
    images: &[NamedImage],
) -> Result<(), AllocError>
    ensures { OnOk result (ranges.new.items ≡ ranges.old.items ++ meaning.ranges_from first images.now) }
{
    let mut range = first;
    for image in images {
        if is_next_place(&range, image) {
            range = with_place(&range, image);
            continue;
        }
        ranges.push(range)?;
        range = place_alone(image);
    }
    ranges.push(range)?;
    Ok(())
}

fn place_alone(image: &NamedImage) -> PlaceRange
    ensures { result ≡ meaning.place_alone image.now }
{
    let (css, mif) = (image.image.css, image.image.mif);
    PlaceRange {
        first: Image { css, mif },
        last: Image { css, mif },
    }
}

fn with_place(range: &PlaceRange, image: &NamedImage) -> PlaceRange
    ensures { result ≡ meaning.with_place range.now image.now }
{
    PlaceRange {
        first: range.first,
        last: image.image,
    }
}

/// Whether an image is the next one after a range of places.
fn is_next_place(range: &PlaceRange, image: &NamedImage) -> bool
    ensures { result ≡ meaning.is_next_place range.now image.now }
{
    let (place, last) = (image.image, range.last);
    place.css == last.css && place.mif.number() == last.mif.number() + 1
}
