ghost use Rattle.std.specs.Prelude.{◌≡◌};

use std::marker::Model;

/// An interruption parameter, 32 bits that the program gives with MODIFY (Principles of Operation,
/// subchannel-information block). It is kept as two halves, so that a struct with one is aligned to
/// two bytes, not to four. Contracts see its number.
#[derive(Clone, Copy)]
pub struct Parm {
    high: u16,
    low: u16,
}

impl Model for Parm {
    ghost use Rattle.std.specs.Prelude.{ℕ, ◌+◌, ◌*◌, ◌/◌, ◌%◌, ◌<◌};

    ghost Value = { ℕ };

    ghost view = { λ p. p.high * 65536 + p.low };

    ghost invariant = { λ p. p.low < 65536 };

    ghost inverse = { λ n. record { high = n / 65536; low = n % 65536 } };
}

impl Parm {
    /// The parameter of this number; each number is one.
    pub fn new(number: u32) -> Self
        ensures { result ≡ number }
    {
        Parm {
            high: (number / 65536) as u16,
            low: (number % 65536) as u16,
        }
    }

    /// The number, 0 to FFFFFFFF.
    pub fn number(self) -> u32
        ensures { result ≡ self }
    {
        u32::from(self.high) * 65536 + u32::from(self.low)
    }
}

impl PartialEq for Parm {
    ghost use Rattle.std.specs.Prelude.{nat_eq};
    ghost use Rattle.std.specs.Cmp.Rules.{comparing};
    ghost use Rattle.std.proofs.Common.{rules};

    ghost eq = { nat_eq };

    ghost laws = { Prim.search (comparing, rules) };

    fn eq(&self, other: &Self) -> bool {
        self.number() == other.number()
    }
}

impl Eq for Parm {
    ghost use Rattle.std.specs.Cmp.Rules.{comparing};
    ghost use Rattle.std.proofs.Common.{rules};

    ghost laws = { Prim.search (comparing, rules) };
}
