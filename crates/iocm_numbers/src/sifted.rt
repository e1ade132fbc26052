ghost use Rattle.std.specs.Prelude.{◌≡◌, [], ◌∷◌, ◌++◌, IfOk, OnOk};
ghost use Rattle.iocm_numbers.specs.PutBack.{numbers_at};
ghost use Rattle.iocm_numbers.specs.Renumbering.{unreached, unnumbered};

use crate::Numbers;
use crate::place_walk::PlaceWalk;
use iocm_config::Config;
use iocm_types::Place;
use std::alloc::{AllocError, Allocator};

/// What a change of the configuration can do at some places: the numbers that are lost there, since
/// their devices aren't reached, and the places that have no number. The word is own.
#[derive(Drop)]
pub(crate) struct Sifted<C: Allocator> {
    /// The numbers that are lost, with their places.
    pub(crate) leaving: Vec<(Place, u16), C>,
    /// The places that have no number.
    pub(crate) unnumbered: Vec<Place, C>,
}

impl<A: Allocator> Numbers<A> {
    /// Sifts some places by a configuration that has changed. The number of each is looked up once.
    ///
    /// `AllocError` (M1): memory ran out.
    pub(crate) fn sift<B: Allocator, C: Allocator + Copy>(
        &self,
        alloc: C,
        config: &Config<B>,
        places: &[Place],
    ) -> Result<Sifted<C>, AllocError>
        ensures leaving { IfOk result (λ s. s.leaving.items
            ≡ numbers_at self.now.numbers (unreached config.now.records places.now)) }
        ensures unnumbered { IfOk result (λ s. s.unnumbered.items ≡ unnumbered self.now.numbers places.now) }
    {
        let mut sifted = Sifted {
            leaving: Vec::new(alloc),
            unnumbered: Vec::new(alloc),
        };
        let mut walk = PlaceWalk::new(config);
        for place in places {
            self.sift_one(&mut sifted, &mut walk, place)?;
        }
        Ok(sifted)
    }

    /// Adds the number at a place to those that are lost, if its device isn't reached, or the place
    /// to those without a number. One that stays is added to neither.
    fn sift_one<B: Allocator, C: Allocator>(
        &self,
        sifted: &mut Sifted<C>,
        walk: &mut PlaceWalk<'_, B>,
        place: &Place,
    ) -> Result<(), AllocError>
        ensures leaving { OnOk result (sifted.new.leaving.items
            ≡ sifted.old.leaving.items ++ numbers_at self.now.numbers (unreached walk.old (place.now ∷ []))) }
        ensures unnumbered { OnOk result (sifted.new.unnumbered.items
            ≡ sifted.old.unnumbered.items ++ unnumbered self.now.numbers (place.now ∷ [])) }
        ensures same { walk.new ≡ walk.old }
    {
        let Some(number) = self.number_of(*place) else {
            sifted.unnumbered.push(*place)?;
            return Ok(());
        };
        if !walk.is_reached(place) {
            sifted.leaving.push((*place, number))?;
        }
        Ok(())
    }
}
