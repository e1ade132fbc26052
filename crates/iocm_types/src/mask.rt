ghost use Rattle.std.specs.Prelude.{◌≡◌, ◌^◌, ◌<◌, bit_and};

use std::fmt;
use std::marker::Model;

/// A path mask of eight bits, the leftmost for the first path of the path list (Principles of
/// Operation, path-installed, path-available and logical-path mask). Contracts see its number.
#[derive(Clone, Copy, PartialEq, Eq)]
pub struct Mask {
    bits: u8,
}

impl Model for Mask {
    ghost use Rattle.std.specs.Prelude.{ℕ};

    ghost Value = { ℕ };

    ghost view = { λ m. m.bits };

    ghost inverse = { λ n. record { bits = n } };
}

impl Mask {
    /// The mask of no path.
    pub const NONE: Mask = Mask { bits: 0 };

    /// The mask of these bits, the highest for the first path.
    pub fn from_bits(bits: u8) -> Self
        ensures { result ≡ bits }
    {
        Mask { bits }
    }

    /// The bits, the highest for the first path.
    pub fn bits(self) -> u8
        ensures { result ≡ self }
    {
        self.bits
    }

    /// The paths that are in both masks, as the bits that both have.
    pub fn common(self, other: Mask) -> Mask
        ensures { result ≡ bit_and self other }
    {
        Mask {
            bits: self.bits & other.bits,
        }
    }
}

/// Two hexadecimal digits.
impl fmt::Display for Mask {
    ghost use Rattle.std.specs.Prelude.{Some};
    ghost use Rattle.iocm_types.specs.Print.{hex2};

    ghost output = { λ m. Some (hex2 m) };

    fn fmt<W: fmt::Write>(&self, f: &mut fmt::Formatter<W>) -> fmt::Result {
        let bits = self.bits;
        write!(f, "{bits:02X}")
    }
}
