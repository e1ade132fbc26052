ghost use Rattle.std.specs.Prelude.{◌≡◌};
ghost use Rattle.iocm_explain.specs.Entry as specs;

use crate::entries::entry_of;
use iocm_types::Rule;
use std::fmt;

/// The entry of a refusal: what the program found and did, and what its user does.
#[derive(Clone, Copy)]
pub struct Entry {
    /// The letter and the number of the refusal, as `S10`.
    pub number: &'static str,
    /// What is wrong, in a few words.
    pub title: &'static str,
    /// The rest of the entry, as plain lines of at most 100 columns. The last line has no end.
    pub text: &'static str,
}

/// The entry as it is printed, without the end of its last line: its heading, an empty line, and its
/// text.
impl fmt::Display for Entry {
    ghost use Rattle.std.specs.Prelude.{Some};
    ghost use Rattle.iocm_explain.specs.Printed.{whole};

    ghost output = { λ e. Some (whole e.number.now e.title.now e.text.now) };

    fn fmt<W: fmt::Write>(&self, f: &mut fmt::Formatter<W>) -> fmt::Result {
        let number = self.number;
        let title = self.title;
        let text = self.text;
        write!(f, "{number}: {title}\n\n{text}")
    }
}

/// The heading of an entry, as `E2: TITLE`: the refusal's number, and what is wrong in a few words.
#[derive(Clone, Copy)]
pub struct Heading(pub Entry);

impl fmt::Display for Heading {
    ghost use Rattle.std.specs.Prelude.{Some};
    ghost use Rattle.iocm_explain.specs.Printed.{heading};

    ghost output = { λ h. Some (heading h.0.number.now h.0.title.now) };

    fn fmt<W: fmt::Write>(&self, f: &mut fmt::Formatter<W>) -> fmt::Result {
        let number = self.0.number;
        let title = self.0.title;
        write!(f, "{number}: {title}")
    }
}

/// What is wrong, in a few words.
pub fn title_of(rule: Rule) -> &'static str
    ensures { result.now ≡ specs.title_of rule }
{
    entry_of(rule).title
}
