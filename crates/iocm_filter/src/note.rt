ghost use Rattle.std.specs.Prelude.{◌≡◌};
ghost use Rattle.iocm_filter.specs.Note as meaning;

use crate::{Asked, DeviceRange, ImageWord, PathWord};
use iocm_types::{Image, Name, SetNo};
use std::fmt;

/// What is said if a deck hasn't what is asked for: `note: there is no image PRD9 in my.deck: it
/// has A and B`. Of an image the names that the deck has are said, if they are 15 at the most.
#[derive(Clone, Copy)]
pub struct Note<'a> {
    /// What is asked for.
    pub asked: Asked,
    /// The file of the deck.
    pub deck: &'a str,
    /// The names of its images.
    pub images: &'a [Name],
}

impl<'a> fmt::Display for Note<'a> {
    ghost use Rattle.std.specs.Prelude.{Some};
    ghost use Rattle.iocm_filter.specs.Note.{note_text};

    ghost output = { λ n. Some (note_text n.asked n.deck.now n.images.now) };

    fn fmt<W: fmt::Write>(&self, f: &mut fmt::Formatter<W>) -> fmt::Result {
        let asked = self.asked;
        let deck = self.deck;
        let names = Names(self.images);
        match (asked, self.images.len()) {
            (Asked::Image(_), 1..=15) => {
                write!(f, "note: there is no {asked} in {deck}: it has {names}")
            }
            _ => write!(f, "note: there is no {asked} in {deck}"),
        }
    }
}

/// What it is, and the word that asks for it: `path 0.50`, or `path 50` of each channel subsystem;
/// `device 1000-100F` of subchannel set 0, `device 1.1000` of another one.
impl fmt::Display for Asked {
    ghost use Rattle.std.specs.Prelude.{Some};
    ghost use Rattle.iocm_filter.specs.Note.{asked_text};

    ghost output = { λ a. Some (asked_text a) };

    fn fmt<W: fmt::Write>(&self, f: &mut fmt::Formatter<W>) -> fmt::Result {
        match self {
            Asked::Image(ImageWord::Named(name)) => write!(f, "image {name}"),
            Asked::Image(ImageWord::Place(Image { css, mif })) => write!(f, "image {css}.{mif}"),
            Asked::Unit(unit) => write!(f, "control unit {unit}"),
            Asked::Path(PathWord { css: None, path }) => write!(f, "path {path}"),
            Asked::Path(
                PathWord {
                    css: Some(css),
                    path,
                },
            ) => write!(f, "path {css}.{path}"),
            Asked::Device(DeviceRange { set, first, last }) => {
                match (*set == SetNo::FIRST, *first == *last) {
                    (true, true) => write!(f, "device {first}"),
                    (true, false) => write!(f, "device {first}-{last}"),
                    (false, true) => write!(f, "device {set}.{first}"),
                    (false, false) => write!(f, "device {set}.{first}-{last}"),
                }
            }
        }
    }
}

/// Names in a row: `A`, `A and B`, `A, B and C`.
#[derive(Clone, Copy)]
struct Names<'a>(&'a [Name]);

impl<'a> fmt::Display for Names<'a> {
    ghost use Rattle.std.specs.Prelude.{Some};
    ghost use Rattle.iocm_filter.specs.Note.{names_text};

    ghost output = { λ n. Some (names_text n.0.now) };

    fn fmt<W: fmt::Write>(&self, f: &mut fmt::Formatter<W>) -> fmt::Result {
        let mut rest = self.0;
        while let [name, more @ ..] = rest {
            let behind = behind_name(more);
            write!(f, "{name}{behind}")?;
            rest = more;
        }
        Ok(())
    }
}

/// What is behind a name, by those that follow.
fn behind_name(more: &[Name]) -> &'static str
    ensures { result.now ≡ meaning.behind_name more.now }
{
    match more {
        [] => "",
        [_] => " and ",
        [_, _, ..] => ", ",
    }
}
