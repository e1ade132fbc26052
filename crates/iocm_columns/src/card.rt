ghost use Rattle.std.specs.Prelude.{◌≡◌};

use std::marker::Model;

/// A line of a deck: its number, counted from 1 over all lines, and all of its bytes without the
/// line end. `cards` gives at most 80 of them, printable ASCII. Source: IOCP User's Guide, card
/// images.
#[derive(Drop)]
pub struct Card<'a> {
    /// The number of the line, from 1.
    pub line: usize,
    /// Columns 1 to 80, as far as the line has them.
    pub bytes: CardBytes<'a>,
}

/// The bytes of a line, in the text that it was read from. Contracts see the list of the bytes.
#[derive(Drop)]
pub struct CardBytes<'a> {
    bytes: &'a [u8],
}

impl<'a> Model for CardBytes<'a> {
    ghost use Rattle.std.specs.Prelude.{List, ℕ};

    ghost Value = { List ℕ };

    ghost view = { λ c. c.bytes.now };
}

impl<'a> CardBytes<'a> {
    /// These bytes.
    pub(crate) fn of(bytes: &'a [u8]) -> Self
        ensures { result ≡ bytes.now }
    {
        CardBytes { bytes }
    }

    /// The bytes.
    pub fn as_slice(&self) -> &'a [u8]
        ensures { result.now ≡ self.now }
    {
        self.bytes
    }
}
