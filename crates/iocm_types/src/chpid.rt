ghost use Rattle.std.specs.Prelude.{◌≡◌};

use std::fmt;
use std::marker::Model;

/// The number of a channel path in its channel subsystem, 00 to FF (IOCP User's Guide, CHPID
/// statement).
#[derive(Clone, Copy, PartialEq, Eq, PartialOrd, Ord)]
pub struct Chpid {
    number: u8,
}

impl Model for Chpid {
    ghost use Rattle.std.specs.Prelude.{ℕ};

    ghost Value = { ℕ };

    ghost view = { λ v. v.number };

    ghost inverse = { λ n. record { number = n } };
}

impl Chpid {
    /// The channel path of this number; each number is one.
    pub fn new(number: u8) -> Self
        ensures { result ≡ number }
    {
        Chpid { number }
    }

    /// The number, 00 to FF.
    pub fn number(self) -> u8
        ensures { result ≡ self }
    {
        self.number
    }
}

/// Two hexadecimal digits.
impl fmt::Display for Chpid {
    ghost use Rattle.std.specs.Prelude.{Some};
    ghost use Rattle.iocm_types.specs.Print.{hex2};

    ghost output = { λ v. Some (hex2 v) };

    fn fmt<W: fmt::Write>(&self, f: &mut fmt::Formatter<W>) -> fmt::Result {
        let number = self.number;
        write!(f, "{number:02X}")
    }
}

/// 00, which fills the unused places of a list of fixed size.
impl Default for Chpid {
    ghost use Rattle.std.specs.Prelude.{◌≡◌};

    ghost is_default = { λ v. v ≡ 0 };

    fn default() -> Self {
        Chpid { number: 0 }
    }
}
