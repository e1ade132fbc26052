ghost use Rattle.std.specs.Prelude.{◌≡◌, ◌≤◌, ◌==◌, length, slice_index, take};
ghost use Rattle.iocm_columns.specs.Columns.{columns_of, is_continued, has_margin, is_skipped, name_of};
ghost use Rattle.iocm_columns.specs.Columns.{operation_of, behind_operation, continuation_area};

use crate::words::{are_blank, put_front, skip_blanks, split_word};
use std::marker::Model;

/// Columns 1 to 72 of a line, read off its bytes. Contracts see the list of the 72 columns.
#[derive(Drop)]
pub(crate) struct Columns<'a> {
    bytes: &'a [u8],
}

impl<'a> Model for Columns<'a> {
    ghost use Rattle.std.specs.Prelude.{List, ℕ};
    ghost use Rattle.iocm_columns.specs.Columns.{columns_of};

    ghost Value = { List ℕ };

    ghost view = { λ c. columns_of c.bytes.now };
}

impl<'a> Columns<'a> {
    /// The columns of a line: padded with blanks, and without columns 73 to 80.
    pub(crate) fn of(bytes: &'a [u8]) -> Self
        ensures { result ≡ columns_of bytes.now }
    {
        Columns { bytes }
    }

    /// Whether the next card continues this one.
    #[tactic(auto, using(crate::proofs::Padding::padding))]
    pub(crate) fn is_continued(&self) -> bool
        ensures { result ≡ is_continued self.now }
    {
        match self.bytes.get(71) {
            Some(byte) => *byte != b' ',
            None => false,
        }
    }

    /// Whether columns 1 to 15 are blank.
    #[tactic(auto, using(crate::proofs::Padding::padding))]
    pub(crate) fn has_margin(&self) -> bool
        ensures { result ≡ has_margin self.now }
    {
        are_blank(front(self.bytes, 15))
    }

    /// Whether this is a comment or a blank line.
    #[tactic(auto, using(crate::proofs::Padding::padding))]
    pub(crate) fn is_skipped(&self) -> bool
        ensures { result ≡ is_skipped self.now }
    {
        is_comment(self.bytes) || are_blank(front(self.bytes, 72))
    }

    /// The columns themselves.
    #[tactic(auto, using(crate::proofs::Padding::padding))]
    pub(crate) fn padded(&self) -> [u8; 72]
        ensures { result ≡ self.now }
    {
        let mut columns = [b' '; 72];
        put_front(&mut columns, front(self.bytes, 72));
        columns
    }
}

/// Whether a line has an asterisk in column 1.
fn is_comment(bytes: &[u8]) -> bool
    ensures { result ≡ (slice_index bytes.now 0 == 42) }
{
    match bytes {
        [first, ..] => *first == b'*',
        [] => false,
    }
}

/// The first bytes of a line, as many as it has up to `len`.
fn front(bytes: &[u8], len: usize) -> &[u8]
    ensures front { result.now ≡ take len bytes.now }
    ensures within { length result.now ≤ len }
{
    &bytes[..len.min(bytes.len())]
}

/// The name, the operation, and the columns from the operand part on.
pub(crate) fn words(columns: &[u8; 72]) -> (&[u8], &[u8], &[u8])
    ensures name { result.0.now ≡ name_of columns.now }
    ensures operation { result.1.now ≡ operation_of columns.now }
    ensures rest { result.2.now ≡ behind_operation columns.now }
{
    let (name, rest) = split_word(&columns[0..71]);
    let (operation, rest) = split_word(skip_blanks(rest));
    (name, operation, skip_blanks(rest))
}

/// Columns 16 to 71.
pub(crate) fn continuation(columns: &[u8; 72]) -> &[u8]
    ensures { result.now ≡ continuation_area columns.now }
{
    &columns[15..71]
}
