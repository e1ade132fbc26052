ghost use Rattle.std.specs.Prelude.{◌≡◌, ◌<◌, IfSome, length};
ghost use Rattle.std.specs.List.{position};
ghost use Rattle.std.specs.Option.{option_map};
ghost use Rattle.iocm_filter.specs.Words as meaning;

use crate::{DeviceRange, ImageWord, PathWord};
use iocm_types::{Css, DevNo, Image, Mif, Name, SetNo, UnitNo};
use iocm_values::{decimal, hex, path_number, unit_number};

/// What a word asks for.
pub(crate) trait AskedWord: Copy + Drop {
    ghost use Rattle.std.specs.Prelude.{ℕ, List, Option};

    /// What a text asks for, if it is such a word.
    ghost asked: { List ℕ → Option Self };

    fn read(text: &[u8]) -> Option<Self>
        ensures { result ≡ asked text.now };
}

/// An image by its name, `LPB`, or by its channel subsystem and MIF image ID, `0.2`.
impl AskedWord for ImageWord {
    ghost asked = { Rattle.iocm_filter.specs.Words.image_word };

    fn read(text: &[u8]) -> Option<Self> {
        if let Some(name) = Name::new(text) {
            return Some(ImageWord::Named(name));
        }
        Some(ImageWord::Place(image_place(text)?))
    }
}

/// Device numbers of a subchannel set: `1003` or `1000-100F` of set 0, and `1.1000-10FF`.
impl AskedWord for DeviceRange {
    ghost asked = { Rattle.iocm_filter.specs.Words.device_word };

    fn read(text: &[u8]) -> Option<Self> {
        let Some((set, rest)) = before_point(text) else {
            return device_numbers(SetNo::FIRST, text);
        };
        let set = decimal(3, &[set])?;
        device_numbers(SetNo::new(set as u8)?, rest)
    }
}

/// A control unit: one to four hexadecimal digits, up to FFFE.
impl AskedWord for UnitNo {
    ghost asked = { Rattle.iocm_filter.specs.Words.unit_word };

    fn read(text: &[u8]) -> Option<Self> {
        unit_number(text)
    }
}

/// A path of a channel subsystem, `0.50`, or of each, `50`.
impl AskedWord for PathWord {
    ghost asked = { Rattle.iocm_filter.specs.Words.path_word };

    fn read(text: &[u8]) -> Option<Self> {
        let Some((css, rest)) = before_point(text) else {
            let path = path_number(text)?;
            return Some(PathWord { css: None, path });
        };
        let css = Some(css_digit(css)?);
        let path = path_number(rest)?;
        Some(PathWord { css, path })
    }
}

/// How many paths, of eight, are online at most.
impl AskedWord for u8 {
    ghost asked = { Rattle.iocm_filter.specs.Words.online_word };

    fn read(text: &[u8]) -> Option<Self> {
        Some(decimal(8, text)? as u8)
    }
}

/// The byte that a point follows, and what follows the point.
fn before_point(text: &[u8]) -> Option<(u8, &[u8])>
    ensures { option_map (λ p. (p.0, p.1.now)) result ≡ meaning.before_point text.now }
{
    match text {
        [byte, b'.', rest @ ..] => Some((*byte, rest)),
        _ => None,
    }
}

fn css_digit(digit: u8) -> Option<Css>
    ensures { result ≡ meaning.css_digit digit }
{
    let number = decimal(5, &[digit])?;
    Css::new(number as u8)
}

fn mif_digit(digit: u8) -> Option<Mif>
    ensures { result ≡ meaning.mif_digit digit }
{
    let number = hex(15, 1, &[digit])?;
    Mif::new(number as u8)
}

fn image_place(text: &[u8]) -> Option<Image>
    ensures { result ≡ meaning.image_place text.now }
{
    match text {
        [css, b'.', mif] => {
            let css = css_digit(*css)?;
            let mif = mif_digit(*mif)?;
            Some(Image { css, mif })
        }
        _ => None,
    }
}

fn device_number(text: &[u8]) -> Option<DevNo>
    ensures { result ≡ meaning.device_number text.now }
{
    let number = hex(65535, 4, text)?;
    Some(DevNo::new(number as u16))
}

fn hyphen_at(text: &[u8]) -> Option<usize>
    ensures place { result ≡ position meaning.is_hyphen text.now }
    ensures within { IfSome result (λ i. i < length text.now) }
{
    text.iter().position(|byte| *byte == b'-')
}

fn device_numbers(set: SetNo, text: &[u8]) -> Option<DeviceRange>
    ensures { result ≡ meaning.device_numbers set text.now }
{
    let Some(place) = hyphen_at(text) else {
        let first = device_number(text)?;
        let last = first;
        return Some(DeviceRange { set, first, last });
    };
    let first = device_number(&text[..place])?;
    let last = device_number(&text[place + 1..])?;
    if first.number() <= last.number() {
        Some(DeviceRange { set, first, last })
    } else {
        None
    }
}
