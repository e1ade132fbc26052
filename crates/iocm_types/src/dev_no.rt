ghost use Rattle.std.specs.Prelude.{◌≡◌};

use std::fmt;
use std::marker::Model;

/// A device number, 0000 to FFFF (IOCP User's Guide, IODEVICE statement).
#[derive(Clone, Copy, PartialEq, Eq, PartialOrd, Ord)]
pub struct DevNo {
    number: u16,
}

impl Model for DevNo {
    ghost use Rattle.std.specs.Prelude.{ℕ};

    ghost Value = { ℕ };

    ghost view = { λ v. v.number };

    ghost inverse = { λ n. record { number = n } };
}

impl DevNo {
    /// The device of this number; each number is one.
    pub fn new(number: u16) -> Self
        ensures { result ≡ number }
    {
        DevNo { number }
    }

    /// The number, 0000 to FFFF.
    pub fn number(self) -> u16
        ensures { result ≡ self }
    {
        self.number
    }
}

/// Four hexadecimal digits.
impl fmt::Display for DevNo {
    ghost use Rattle.std.specs.Prelude.{Some};
    ghost use Rattle.iocm_types.specs.Print.{hex4};

    ghost output = { λ v. Some (hex4 v) };

    fn fmt<W: fmt::Write>(&self, f: &mut fmt::Formatter<W>) -> fmt::Result {
        let number = self.number;
        write!(f, "{number:04X}")
    }
}
