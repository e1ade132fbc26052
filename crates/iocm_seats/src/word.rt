ghost use Rattle.std.specs.Prelude.{◌≡◌};

use std::marker::Model;

/// A halfword that needs no even address: 16 bits in two bytes. Contracts see its number.
#[derive(Drop)]
pub(crate) struct Halfword {
    low: u8,
    high: u8,
}

impl Model for Halfword {
    ghost use Rattle.std.specs.Prelude.{ℕ, ◌+◌, ◌*◌};

    ghost Value = { ℕ };

    ghost view = { λ h. h.high * 256 + h.low };
}

impl Halfword {
    /// The halfword of this number; each number is one.
    pub(crate) fn new(number: u16) -> Self
        ensures { result ≡ number }
    {
        Halfword {
            low: (number % 256) as u8,
            high: (number / 256) as u8,
        }
    }

    /// The number, 0 to FFFF.
    pub(crate) fn number(&self) -> u16
        ensures { result ≡ self.now }
    {
        u16::from(self.high) * 256 + u16::from(self.low)
    }
}

/// A word that may be at any address: 32 bits in four bytes. Contracts see its number.
#[derive(Drop)]
pub(crate) struct Word {
    high: Halfword,
    low: Halfword,
}

impl Model for Word {
    ghost use Rattle.std.specs.Prelude.{ℕ, ◌+◌, ◌*◌};

    ghost Value = { ℕ };

    ghost view = { λ w. w.high * 65536 + w.low };
}

impl Word {
    /// The word of this number; each number is one.
    pub(crate) fn new(number: u32) -> Self
        ensures { result ≡ number }
    {
        Word {
            high: Halfword::new((number / 65536) as u16),
            low: Halfword::new((number % 65536) as u16),
        }
    }

    /// The number, 0 to FFFFFFFF.
    pub(crate) fn number(&self) -> u32
        ensures { result ≡ self.now }
    {
        u32::from(self.high.number()) * 65536 + u32::from(self.low.number())
    }
}
