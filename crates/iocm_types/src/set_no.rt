ghost use Rattle.std.specs.Prelude.{◌≡◌, ◌<◌, ◌↔◌, IsSome, IfSome};

use std::fmt;
use std::marker::Model;

/// The number of a subchannel set, 0 to 3 (IOCP User's Guide, `SCHSET`).
#[derive(Clone, Copy, PartialEq, Eq, PartialOrd, Ord)]
pub struct SetNo {
    number: u8,
}

impl Model for SetNo {
    ghost use Rattle.std.specs.Prelude.{ℕ, ◌<◌};

    ghost Value = { ℕ };

    ghost view = { λ v. v.number };

    ghost invariant = { λ v. v.number < 4 };

    ghost inverse = { λ n. record { number = n } };
}

impl SetNo {
    /// Subchannel set 0, where devices stand that name none.
    pub const FIRST: SetNo = SetNo { number: 0 };

    /// The subchannel set of this number, if there is one.
    pub fn new(number: u8) -> Option<Self>
        ensures valid { IsSome result ↔ (number < 4) }
        ensures value { IfSome result (λ v. v ≡ number) }
    {
        if number < 4 {
            Some(SetNo { number })
        } else {
            None
        }
    }

    /// The number, 0 to 3.
    pub fn number(self) -> u8
        ensures value { result ≡ self }
        ensures range { result < 4 }
    {
        self.number
    }
}

/// One digit.
impl fmt::Display for SetNo {
    ghost use Rattle.std.specs.Prelude.{Some};
    ghost use Rattle.iocm_types.specs.Print.{hex1};

    ghost output = { λ v. Some (hex1 v) };

    fn fmt<W: fmt::Write>(&self, f: &mut fmt::Formatter<W>) -> fmt::Result {
        let number = self.number;
        write!(f, "{number:X}")
    }
}
