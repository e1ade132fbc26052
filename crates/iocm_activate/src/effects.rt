ghost use Rattle.std.specs.Prelude.{◌≡◌, ◌<◌, ◌++◌, ◌∷◌, [], length, IsTrue, OnOk, Some, slice_get};
ghost use Rattle.iocm_history.specs.Change.{share_a_cell};
ghost use Rattle.iocm_activate.specs.Effects.{effect_in};

use crate::effect::Effect;
use crate::sharing::share_a_cell;
use crate::signature::Signature;
use std::alloc::{AllocError, Global};
use std::marker::Model;

/// The effects of changes, in the order of the changes. Their signatures are in a list of their
/// own, so whether two have a cell in common is mostly known without a look at them. Contracts see
/// the effects, and whether there is room for one more. The word is own.
#[derive(Drop)]
pub struct Effects {
    effects: Vec<Effect>,
    signatures: Vec<Signature>,
}

impl Model for Effects {
    ghost use Rattle.std.specs.Prelude.{Bool, List, nat_lt, ◌&&◌, refl};
    ghost use Rattle.std.specs.Coded.{code_by, coded×, coded_bool, coded_list};
    ghost use Rattle.std.specs.Vec.{vec_len, vec_capacity};
    ghost use Rattle.iocm_activate.specs.contracts.effect.Effect as its_effect;
    ghost use Rattle.iocm_activate.specs.declared.effect.Effect.{Effect};
    ghost use Rattle.iocm_activate.specs.Effects.{Listed};
    ghost use Rattle.iocm_activate.specs.Signatures.{AreSignaturesOf};

    ghost Value = { Listed };

    ghost coded = { code_by (List Effect × Bool) (coded× (coded_list its_effect.the_row.coded) coded_bool)
        (λ l. (l.items, l.has_room)) (λ p. record { items = p.0; has_room = p.1 }) (λ _. refl) };

    ghost view = { λ e. record {
      items = e.effects.items;
      has_room = nat_lt (vec_len e.effects) (vec_capacity e.effects)
          && nat_lt (vec_len e.signatures) (vec_capacity e.signatures);
    } };

    ghost invariant = { λ e. AreSignaturesOf e.signatures.items e.effects.items };
}

impl Effects {
    /// Of no change. Can't run out of memory.
    pub fn new(alloc: Global) -> Effects
        ensures { result.items ≡ [] }
    {
        Effects {
            effects: Vec::new(alloc),
            signatures: Vec::new(alloc),
        }
    }

    /// The effect at a place, counted from 0.
    pub fn get(&self, place: usize) -> &Effect
        requires { place < length self.now.items }
        ensures { slice_get self.now.items place ≡ Some result.now }
    {
        &self.effects[place]
    }

    /// Makes room for one more.
    ///
    /// `AllocError` (M1): memory ran out.
    pub fn room(&mut self) -> Result<(), AllocError>
        ensures same { self.new.items ≡ self.old.items }
        ensures room { OnOk result (IsTrue self.new.has_room) }
    {
        self.effects.reserve(1)?;
        self.signatures.reserve(1)
    }

    /// Adds the effect of one more change, for which there is room. Can't run out of memory.
    pub fn push(&mut self, effect: Effect)
        requires { IsTrue self.old.has_room }
        ensures { self.new.items ≡ self.old.items ++ effect ∷ [] }
    {
        let signature = Signature::of(&effect);
        self.effects.push_reserved(effect);
        self.signatures.push_reserved(signature);
    }

    /// Whether the changes at two places, counted from 0, wrote a cell in common. Where their
    /// signatures are apart, nothing else is read.
    pub fn share_a_cell(&self, one: usize, other: usize) -> bool
        requires one { one < length self.now.items }
        requires other { other < length self.now.items }
        ensures { (f g : Effect) → slice_get self.now.items one ≡ Some f → slice_get self.now.items other ≡ Some g
            → result ≡ share_a_cell (effect_in f) (effect_in g) }
    {
        if self.signatures[one].is_apart(self.signatures[other]) {
            return false;
        }
        share_a_cell(&self.effects[one], &self.effects[other])
    }

    /// The effects alone.
    pub fn into_effects(self) -> Vec<Effect>
        ensures { result.items ≡ self.items }
    {
        let Effects {
            effects,
            signatures: _signatures,
        } = self;
        effects
    }
}
