ghost use Rattle.std.specs.Prelude.{◌≡◌, ◌<◌, ◌↔◌, IsSome, IfSome};

use std::fmt;
use std::marker::Model;

/// A MIF image ID, 1 to F, the number of an image in its channel subsystem (IOCP User's Guide,
/// RESOURCE statement).
#[derive(Clone, Copy, PartialEq, Eq, PartialOrd, Ord)]
pub struct Mif {
    number: u8,
}

impl Model for Mif {
    ghost use Rattle.std.specs.Prelude.{ℕ, ◌<◌};

    ghost Value = { ℕ };

    ghost view = { λ v. v.number };

    ghost invariant = { λ v. (0 < v.number) × (v.number < 16) };

    ghost inverse = { λ n. record { number = n } };
}

impl Mif {
    /// The image ID of this number, if there is one; 0 is none.
    pub fn new(number: u8) -> Option<Self>
        ensures valid { IsSome result ↔ ((0 < number) × (number < 16)) }
        ensures value { IfSome result (λ v. v ≡ number) }
    {
        if number > 0 && number < 16 {
            Some(Mif { number })
        } else {
            None
        }
    }

    /// The number, 1 to F.
    pub fn number(self) -> u8
        ensures value { result ≡ self }
        ensures range { (0 < result) × (result < 16) }
    {
        self.number
    }
}

/// One hexadecimal digit.
impl fmt::Display for Mif {
    ghost use Rattle.std.specs.Prelude.{Some};
    ghost use Rattle.iocm_types.specs.Print.{hex1};

    ghost output = { λ v. Some (hex1 v) };

    fn fmt<W: fmt::Write>(&self, f: &mut fmt::Formatter<W>) -> fmt::Result {
        let number = self.number;
        write!(f, "{number:X}")
    }
}
