ghost use Rattle.std.specs.Prelude.{◌≡◌, map, option_map};
ghost use Rattle.iocm_filter.specs.Misread as meaning;
ghost use Rattle.iocm_filter.specs.Misread.{misread_of, seen_misread};
ghost use Rattle.iocm_filter.specs.Words.{words_of};

use crate::words::AskedWord;
use crate::{DeviceRange, FilterWords, ImageWord, PathWord};
use iocm_types::UnitNo;
use std::fmt;

/// The options that take such words.
#[derive(Clone, Copy, PartialEq, Eq)]
pub enum FilterOption {
    /// `--image`
    Image,
    /// `--device`
    Device,
    /// `--unit`
    Unit,
    /// `--path`
    Path,
    /// `--paths-online`
    PathsOnline,
}

/// A value that has none of the forms of its option.
#[derive(Clone, Copy)]
pub struct Misread<'w> {
    /// The option.
    pub option: FilterOption,
    /// The value as it was given.
    pub value: &'w str,
}

/// The option, the value, and which forms it may have: `--path 4G: not a path: ..`.
impl<'w> fmt::Display for Misread<'w> {
    ghost use Rattle.std.specs.Prelude.{Some};
    ghost use Rattle.iocm_filter.specs.Misread.{misread_text};

    ghost output = { λ m. Some (misread_text m.option m.value.now) };

    fn fmt<W: fmt::Write>(&self, f: &mut fmt::Formatter<W>) -> fmt::Result {
        let value = self.value;
        match self.option {
            FilterOption::Image => write!(
                f,
                "--image {value}: not an image: a name, as LPB, or a place, as 0.2 \
                 (channel subsystem 0, MIF image ID 2)"
            ),
            FilterOption::Device => write!(
                f,
                "--device {value}: not a device: 1003 or 1000-100F of subchannel set 0, \
                 or 1.1000-10FF of subchannel set 1"
            ),
            FilterOption::Unit => write!(
                f,
                "--unit {value}: not a control unit: 1000, one to four hexadecimal digits up to FFFE"
            ),
            FilterOption::Path => write!(
                f,
                "--path {value}: not a path: 0.50 of channel subsystem 0, or 50 of every one"
            ),
            FilterOption::PathsOnline => {
                write!(f, "--paths-online {value}: not a number of paths: 0 to 8")
            }
        }
    }
}

/// The first of these words that asks for nothing, with their option.
fn first_misread<'w, T: AskedWord>(option: FilterOption, words: &[&'w str]) -> Option<Misread<'w>>
    ensures { option_map seen_misread result ≡ meaning.first_misread option (T.asked) (map (λ w. w.now) words.now) }
{
    let value = *words
        .iter()
        .find(|word| T::read(word.as_bytes()).is_none())?;
    Some(Misread { option, value })
}

impl<'m, 'w> FilterWords<'m, 'w> {
    /// The first word of another form, if there is one: images are looked at first, then devices,
    /// control units, paths, and how many paths are online.
    pub fn misread(&self) -> Option<Misread<'w>>
        ensures { option_map seen_misread result ≡ misread_of (words_of self.now) }
    {
        first_misread::<ImageWord>(FilterOption::Image, self.images)
            .or_else(|| first_misread::<DeviceRange>(FilterOption::Device, self.devices))
            .or_else(|| first_misread::<UnitNo>(FilterOption::Unit, self.units))
            .or_else(|| first_misread::<PathWord>(FilterOption::Path, self.paths))
            .or_else(|| first_misread::<u8>(FilterOption::PathsOnline, self.online))
    }
}
