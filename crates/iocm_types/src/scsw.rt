use bitflags::{Flag, Flags, bitflag_items};

/// The function and status bits that a subchannel shows: the function in progress or pending, and
/// whether its status is pending. The values are own (the subchannel-status word of the Principles
/// of Operation has more, and in other places).
#[derive(Clone, Copy, PartialEq, Eq)]
pub struct ScswBits(u8);

bitflag_items! {
    impl ScswBits: u8 {
        const START = 1;
        const HALT = 2;
        const CLEAR = 4;
        const PENDING = 8;
    }
}

impl Flags for ScswBits {
    ghost use Rattle.std.specs.Prelude.{⊤, [], ◌∷◌, codes};

    type Bits = u8;

    ghost exact = { ⊤ };

    ghost table = { (codes "START", 1) ∷ (codes "HALT", 2) ∷ (codes "CLEAR", 4) ∷ (codes "PENDING", 8) ∷ [] };

    ghost set_of = { λ b. b.0 };

    fn flags<'a>() -> &'a [Flag<ScswBits>] {
        ScswBits::FLAGS
    }

    fn bits(&self) -> u8 {
        self.0
    }

    fn from_bits_retain(bits: u8) -> ScswBits {
        ScswBits(bits)
    }
}
