use crate::names::ImageName;
use iocm_types::Image;
use std::fmt;

/// The line of a change: how many subchannels it altered, and its number, counted from 1.
#[derive(Clone, Copy)]
pub struct ChangeLine {
    /// How many subchannels it altered.
    pub altered: usize,
    /// Its number.
    pub change: usize,
}

/// The line without its end.
impl fmt::Display for ChangeLine {
    ghost use Rattle.std.specs.Prelude.{Some};
    ghost use Rattle.serde_json.specs.Written.{compact_text};
    ghost use Rattle.iocm_lines.specs.Change.{change_value};

    ghost output = { λ l. Some (compact_text (change_value l.altered l.change)) };

    #[tactic(auto, unfolding(json::specs::Print::escape_byte))]
    fn fmt<W: fmt::Write>(&self, f: &mut fmt::Formatter<W>) -> fmt::Result {
        let altered = self.altered;
        let change = self.change;
        write!(
            f,
            "{{\"altered\":{altered},\"change\":{change},\"type\":\"change\"}}"
        )
    }
}

/// How many subchannels of an image a change altered, by what became of them.
#[derive(Clone, Copy, PartialEq, Eq)]
pub struct AlteredCounts {
    /// The image.
    pub image: Image,
    /// What was seen there is gone.
    pub gone: usize,
    /// Nothing was seen there, and now something is.
    pub came: usize,
    /// Something else is seen there than before.
    pub changed: usize,
    /// The same is seen there as before, or nothing was and is.
    pub same: usize,
}

/// The line of what a change altered of an image.
#[derive(Clone, Copy)]
pub struct CountLine(pub AlteredCounts);

/// The line without its end.
impl fmt::Display for CountLine {
    ghost use Rattle.std.specs.Prelude.{Some};
    ghost use Rattle.serde_json.specs.Written.{compact_text};
    ghost use Rattle.iocm_lines.specs.Change.{count_value};

    ghost output = { λ l. Some (compact_text (count_value l.0)) };

    fn fmt<W: fmt::Write>(&self, f: &mut fmt::Formatter<W>) -> fmt::Result {
        let image = ImageName(self.0.image);
        let came = self.0.came;
        let changed = self.0.changed;
        let gone = self.0.gone;
        let same = self.0.same;
        write!(
            f,
            "{{\"came\":{came},\"changed\":{changed},\"gone\":{gone},\"image\":\"{image}\",\
             \"same\":{same},\"type\":\"count\"}}"
        )
    }
}
