ghost use Rattle.std.specs.Prelude.{◌≡◌};
ghost use Rattle.iocm_model.specs.Change.Edit.{state_after};
ghost use Rattle.iocm_model.specs.Change.Inverse.{inverse_of};
ghost use Rattle.iocm_plant.specs.TakingBack.{CanUnapply};

use crate::Plant;
use crate::record::exchange_record;
use iocm_seats::exchange;
use iocm_tree::{Edit, Parts};

impl Plant {
    /// Takes an edit back, by the edit that performing it gave, or performs it anew, by the edit
    /// that taking it back gave; its live records as they were given or set anew, and the altered
    /// subchannels quiet or not. The configuration and the numbers are as that call left them. It
    /// gives the edit that takes this back. Can't run out of memory.
    ///
    /// Promise: an edit is taken back without memory.
    pub fn unapply(&mut self, inverse: Edit) -> Edit
        requires { CanUnapply inverse self.old }
        ensures state { self.new.state ≡ state_after inverse.edit self.old.state }
        ensures inverse { result.edit ≡ inverse_of inverse.edit self.old.state }
        ensures back { CanUnapply result self.new }
        ensures room { self.new.room ≡ self.old.room }
    {
        // For the proof alone: whatever is there has a place.
        self.numbers.have_room();
        self.index.has_places();
        self.seats.has_places();
        let key = inverse.key();
        let Parts {
            action,
            places,
            kept,
            frees,
            mut meets,
        } = inverse.into_parts();
        let action = exchange_record(&mut self.config, &mut self.index, action);
        self.reach.renew(&self.config, &key);
        self.numbers.exchange(frees.as_slice(), places.as_slice());
        exchange(
            &mut self.seats,
            &self.config,
            &self.numbers,
            &self.reach,
            meets.as_mut_slice(),
            kept.as_slice(),
        );
        Edit::from_parts(Parts {
            action,
            places: frees,
            kept: meets,
            frees: places,
            meets: kept,
        })
    }
}
