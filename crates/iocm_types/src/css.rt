ghost use Rattle.std.specs.Prelude.{◌≡◌, ◌<◌, ◌↔◌, IsSome, IfSome};

use std::fmt;
use std::marker::Model;

/// The number of a channel subsystem, 0 to 5 (IOCP User's Guide, `CSS(n)`).
#[derive(Clone, Copy, PartialEq, Eq, PartialOrd, Ord)]
pub struct Css {
    number: u8,
}

impl Model for Css {
    ghost use Rattle.std.specs.Prelude.{ℕ, ◌<◌};

    ghost Value = { ℕ };

    ghost view = { λ v. v.number };

    ghost invariant = { λ v. v.number < 6 };

    ghost inverse = { λ n. record { number = n } };
}

impl Css {
    /// Channel subsystem 0, where items stand that name none.
    pub const FIRST: Css = Css { number: 0 };

    /// The channel subsystem of this number, if there is one.
    pub fn new(number: u8) -> Option<Self>
        ensures valid { IsSome result ↔ (number < 6) }
        ensures value { IfSome result (λ v. v ≡ number) }
    {
        if number < 6 {
            Some(Css { number })
        } else {
            None
        }
    }

    /// The number, 0 to 5.
    pub fn number(self) -> u8
        ensures value { result ≡ self }
        ensures range { result < 6 }
    {
        self.number
    }
}

/// One digit.
impl fmt::Display for Css {
    ghost use Rattle.std.specs.Prelude.{Some};
    ghost use Rattle.iocm_types.specs.Print.{hex1};

    ghost output = { λ v. Some (hex1 v) };

    fn fmt<W: fmt::Write>(&self, f: &mut fmt::Formatter<W>) -> fmt::Result {
        let number = self.number;
        write!(f, "{number:X}")
    }
}
