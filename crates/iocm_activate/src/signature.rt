ghost use Rattle.std.specs.Prelude.{◌≡◌, true, false};
ghost use Rattle.std.specs.Map.{keys_of};
ghost use Rattle.iocm_model.specs.Change.Effect as model;
ghost use Rattle.iocm_history.specs.Change.{share_a_cell};
ghost use Rattle.iocm_activate.specs.Effects.{effect_in};
ghost use Rattle.iocm_activate.specs.Signature.{AreSigned};
ghost use Rattle.iocm_activate.specs.Signatures.{IsSignatureOf};

use crate::cell_key::CellKey;
use crate::effect::Effect;

/// The signature of an effect: two words of 64 bits, in which each cell sets one bit. So two
/// changes that have no cell in common are mostly told apart without a look at their cells. The
/// word is own.
#[derive(Clone, Copy)]
pub struct Signature {
    /// Set by the keys of records.
    pub records: u64,
    /// Set by number cells, and by subchannels. Those of one device mostly have one number.
    pub subchannels: u64,
}

impl Signature {
    /// The signature of an effect. The time is that of one walk over its cells.
    pub fn of(effect: &Effect) -> Signature
        ensures { IsSignatureOf result (effect_in effect.now) }
    {
        let numbers = bits_of(effect.numbers.cells());
        let lives = bits_of(effect.lives.cells());
        Signature {
            records: bits_of(effect.records.cells()),
            subchannels: numbers | lives,
        }
    }

    /// True only where the two have no bit in common: then their effects have no cell in common.
    pub fn is_apart(self, other: Signature) -> bool
        ensures { result ≡ true → (f g : model.Effect) → IsSignatureOf self f → IsSignatureOf other g
            → share_a_cell f g ≡ false }
    {
        self.records & other.records == 0 && self.subchannels & other.subchannels == 0
    }
}

/// The bits of the keys of cells.
fn bits_of<K: CellKey, V>(cells: &[(K, Option<V>)]) -> u64
    ensures { AreSigned K.number result (keys_of cells.now) }
{
    let mut bits = 0u64;
    for cell in cells {
        bits |= 1u64 << (cell.0.number() % 64);
    }
    bits
}
