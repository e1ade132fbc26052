ghost use Rattle.std.specs.Prelude.{◌≡◌, ◌<◌, ◌≤◌, ℕ, false, [], length, slice_index, take, IfOk, OnOk};
ghost use Rattle.std.specs.List.{fold};
ghost use Rattle.iocm_columns.specs.Part.{switched, is_quoting, ends, front, going_of};
ghost use Rattle.iocm_columns.specs.Part.{ends_in_comma, part_after, continued};
ghost use Rattle.memchr.specs.Find.{is_byte2};

use crate::going::Going;
use crate::words::skip_blanks;
use iocm_types::Text;
use memchr::memchr2;
use std::alloc::{AllocError, Global};
use std::marker::Model;

/// An operand part so far: its text, whether it ends inside quotes, and how it goes on.
/// Contracts see the text and how it goes on.
#[derive(Drop)]
pub(crate) struct Part {
    text: Vec<u8>,
    quoting: bool,
    going: Going,
}

impl Model for Part {
    ghost use Rattle.std.specs.Prelude.{◌≡◌};
    ghost use Rattle.iocm_columns.specs.Part as spec;

    ghost Value = { spec.Part };

    ghost view = { λ p. record { text = p.text.items; going = p.going } };

    ghost invariant = { λ p. p.quoting ≡ spec.is_quoting p.text.items };
}

impl Part {
    /// The part that begins in these columns.
    pub(crate) fn begin(alloc: Global, columns: &[u8]) -> Result<Part, AllocError>
        ensures { IfOk result (λ part. part ≡ part_after [] columns.now) }
    {
        let mut part = Part {
            text: Vec::new(alloc),
            quoting: false,
            going: Going::AtNext,
        };
        part.add(columns)?;
        Ok(part)
    }

    /// Goes on in columns 16 to 71 of a continuation.
    pub(crate) fn go_on(&mut self, area: &[u8]) -> Result<(), AllocError>
        ensures { OnOk result (self.new ≡ continued self.old.going self.old.text area.now) }
    {
        match self.going {
            Going::Exactly => self.add(area),
            Going::AtNext => self.add(skip_blanks(area)),
            Going::Ended => Ok(()),
        }
    }

    /// The text of the part.
    pub(crate) fn into_text(self) -> Text
        ensures { result ≡ self.text }
    {
        Text::from_vec(self.text)
    }

    fn add(&mut self, columns: &[u8]) -> Result<(), AllocError>
        ensures { OnOk result (self.new ≡ part_after self.old.text columns.now) }
    {
        let Front { len, quoting } = find_front(self.quoting, columns);
        let (taken, rest) = columns.split_at(len);
        self.text.extend_from_slice(taken)?;
        self.quoting = quoting;
        self.going = going_after(self.text.as_slice(), self.quoting, rest.is_empty());
        Ok(())
    }
}

/// The columns that belong to a part: how many, and whether they end inside quotes.
#[derive(Clone, Copy)]
struct Front {
    len: usize,
    quoting: bool,
}

/// Which of the columns belong to the part.
#[tactic(auto, using(crate::proofs::Scanning::scanning))]
fn find_front(quoting: bool, columns: &[u8]) -> Front
    ensures front { take result.len columns.now ≡ front quoting columns.now }
    ensures within { result.len ≤ length columns.now }
    ensures quoting { result.quoting ≡ fold switched quoting (take result.len columns.now) }
{
    let mut inside = quoting;
    for place in plain_len(columns)..columns.len() {
        if ends_part(inside, columns[place]) {
            return Front {
                len: place,
                quoting: inside,
            };
        }
        inside = switch(inside, columns[place]);
    }
    Front {
        len: columns.len(),
        quoting: inside,
    }
}

/// How many columns stand before the first blank or quote: they belong to the part in any case.
fn plain_len(columns: &[u8]) -> usize
    ensures within { result ≤ length columns.now }
    ensures plain { (i : ℕ) → i < result → is_byte2 32 39 (slice_index columns.now i) ≡ false }
{
    memchr2(b' ', b'\'', columns).unwrap_or(columns.len())
}

#[tactic(auto, unfolding(crate::specs::Part::switched))]
fn switch(inside: bool, byte: u8) -> bool
    ensures { result ≡ switched inside byte }
{
    if byte == b'\'' { !inside } else { inside }
}

#[tactic(auto, unfolding(crate::specs::Part::ends))]
fn ends_part(inside: bool, byte: u8) -> bool
    ensures { result ≡ ends inside byte }
{
    byte == b' ' && !inside
}

fn going_after(text: &[u8], quoting: bool, through: bool) -> Going
    requires { quoting ≡ is_quoting text.now }
    ensures { result ≡ going_of text.now through }
{
    if text.is_empty() || has_comma_end(text, quoting) {
        return Going::AtNext;
    }
    if through {
        Going::Exactly
    } else {
        Going::Ended
    }
}

fn has_comma_end(text: &[u8], quoting: bool) -> bool
    requires { quoting ≡ is_quoting text.now }
    ensures { result ≡ ends_in_comma text.now }
{
    match text {
        [.., b','] => !quoting,
        _ => false,
    }
}
