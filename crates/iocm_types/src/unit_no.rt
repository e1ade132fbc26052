ghost use Rattle.std.specs.Prelude.{◌≡◌, ◌<◌, ◌↔◌, IsSome, IfSome};

use std::fmt;
use std::marker::Model;

/// The number of a control unit, 0000 to FFFE (IOCP User's Guide, CNTLUNIT statement).
#[derive(Clone, Copy, PartialEq, Eq, PartialOrd, Ord)]
pub struct UnitNo {
    number: u16,
}

impl Model for UnitNo {
    ghost use Rattle.std.specs.Prelude.{ℕ, ◌<◌};

    ghost Value = { ℕ };

    ghost view = { λ v. v.number };

    ghost invariant = { λ v. v.number < 65535 };

    ghost inverse = { λ n. record { number = n } };
}

impl UnitNo {
    /// The control unit of this number, if there is one; FFFF is none.
    pub fn new(number: u16) -> Option<Self>
        ensures valid { IsSome result ↔ (number < 65535) }
        ensures value { IfSome result (λ v. v ≡ number) }
    {
        if number < 65535 {
            Some(UnitNo { number })
        } else {
            None
        }
    }

    /// The number, 0000 to FFFE.
    pub fn number(self) -> u16
        ensures value { result ≡ self }
        ensures range { result < 65535 }
    {
        self.number
    }
}

/// Four hexadecimal digits.
impl fmt::Display for UnitNo {
    ghost use Rattle.std.specs.Prelude.{Some};
    ghost use Rattle.iocm_types.specs.Print.{hex4};

    ghost output = { λ v. Some (hex4 v) };

    fn fmt<W: fmt::Write>(&self, f: &mut fmt::Formatter<W>) -> fmt::Result {
        let number = self.number;
        write!(f, "{number:04X}")
    }
}
