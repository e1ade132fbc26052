ghost use Rattle.std.specs.Prelude.{◌≡◌};
ghost use Rattle.iocm_history.specs.Change.{share_a_cell};
ghost use Rattle.iocm_activate.specs.Effects.{effect_in};

use crate::effect::Effect;

/// Whether two changes wrote a cell in common: a key, a number cell or a subchannel.
pub fn share_a_cell(one: &Effect, other: &Effect) -> bool
    ensures { result ≡ share_a_cell (effect_in one.now) (effect_in other.now) }
{
    one.records.have_common(&other.records)
        || one.numbers.have_common(&other.numbers)
        || one.lives.have_common(&other.lives)
}
