use crate::Origin;
use iocm_console::{About, Refusal};
use iocm_explain::title_of;
use iocm_lines::SubchannelName;
use std::fmt;

/// What is said of a refusal beside it: from where it comes, what it is about, what is wrong, and
/// where to read on. The word is own.
#[derive(Clone, Copy)]
pub struct Remark<'a> {
    /// The file of the text from which the refusal comes, if that is known.
    pub file: Option<&'a str>,
    /// Where in the text it comes from.
    pub origin: Origin,
    /// The refusal.
    pub why: Refusal,
    /// The line from which it comes, if it is to be shown.
    pub line: Option<&'a str>,
}

/// Two or three lines, without the end of the last one.
impl<'a> fmt::Display for Remark<'a> {
    ghost use Rattle.std.specs.Prelude.{Some, option_map};
    ghost use Rattle.iocm_origin.specs.Remark.{remark_text};

    ghost output = { λ r. Some
        (remark_text (option_map (λ s. s.now) r.file) r.origin r.why (option_map (λ s. s.now) r.line)) };

    fn fmt<W: fmt::Write>(&self, f: &mut fmt::Formatter<W>) -> fmt::Result {
        let place = PlaceName(self.file, self.origin);
        let about = AboutName(self.why.about);
        let title = TitleName(self.why);
        let line = LineName(self.origin, self.line);
        let number = self.why.number;
        write!(
            f,
            "{place}{about}{title}{line}\n  see: iocm explain {number}"
        )
    }
}

/// A file and where in it: `FILE, line 7: `, `FILE, at the end: ` or `FILE: `.
#[derive(Clone, Copy)]
struct PlaceName<'a>(Option<&'a str>, Origin);

impl<'a> fmt::Display for PlaceName<'a> {
    ghost use Rattle.std.specs.Prelude.{Some, option_map};
    ghost use Rattle.iocm_origin.specs.Remark.{place_text};

    ghost output = { λ p. Some (place_text (option_map (λ s. s.now) p.0) p.1) };

    fn fmt<W: fmt::Write>(&self, f: &mut fmt::Formatter<W>) -> fmt::Result {
        let Some(file) = self.0 else {
            return Ok(());
        };
        match self.1 {
            Origin::Line(line) => write!(f, "{file}, line {line}: "),
            Origin::End => write!(f, "{file}, at the end: "),
            Origin::Whole => write!(f, "{file}: "),
        }
    }
}

/// What a refusal is about, before what is wrong with it.
#[derive(Clone, Copy)]
struct AboutName(About);

impl fmt::Display for AboutName {
    ghost use Rattle.std.specs.Prelude.{Some};
    ghost use Rattle.iocm_origin.specs.Remark.{about_text};

    ghost output = { λ a. Some (about_text a.0) };

    fn fmt<W: fmt::Write>(&self, f: &mut fmt::Formatter<W>) -> fmt::Result {
        match self.0 {
            About::Key(key) => write!(f, "{key}: "),
            About::Subchannel(subchannel) => {
                let name = SubchannelName(subchannel);
                write!(f, "subchannel {name}: ")
            }
            About::Change(number) => write!(f, "change {number}: "),
            About::Line(_) | About::Nothing => Ok(()),
        }
    }
}

/// The line from which a refusal comes, below, behind its number.
#[derive(Clone, Copy)]
struct LineName<'a>(Origin, Option<&'a str>);

impl<'a> fmt::Display for LineName<'a> {
    ghost use Rattle.std.specs.Prelude.{Some, option_map};
    ghost use Rattle.iocm_origin.specs.Remark.{line_text};

    ghost output = { λ l. Some (line_text l.0 (option_map (λ s. s.now) l.1)) };

    fn fmt<W: fmt::Write>(&self, f: &mut fmt::Formatter<W>) -> fmt::Result {
        match (self.0, self.1) {
            (Origin::Line(number), Some(line)) => write!(f, "\n  {number} | {line}"),
            _ => Ok(()),
        }
    }
}

/// What is wrong, and the number of the refusal.
#[derive(Clone, Copy)]
struct TitleName(Refusal);

impl fmt::Display for TitleName {
    ghost use Rattle.std.specs.Prelude.{Some};
    ghost use Rattle.iocm_origin.specs.Remark.{title_text};

    ghost output = { λ t. Some (title_text t.0) };

    fn fmt<W: fmt::Write>(&self, f: &mut fmt::Formatter<W>) -> fmt::Result {
        let number = self.0.number;
        let title = title_of(number);
        write!(f, "{title} ({number})")
    }
}
