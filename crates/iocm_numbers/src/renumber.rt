ghost use Rattle.std.specs.Prelude.{◌≡◌, true, false, None, fold, IfOk, OnOk, OnErr};
ghost use Rattle.iocm_model.specs.Machine.Numbering.{device_at};
ghost use Rattle.iocm_model.specs.Change.Renumbering.{without_leavers, with_carried, numbers_after};
ghost use Rattle.iocm_model.specs.Change.Refusal.{is_number_taken};
ghost use Rattle.iocm_model.specs.Change.Inverse.{freed_numbers};
ghost use Rattle.iocm_numbers.specs.Numbered.{cell_at, KeepsRoom};
ghost use Rattle.iocm_numbers.specs.PutBack.{numbers_at};
ghost use Rattle.iocm_numbers.specs.Renumbering.{filled_by, given_by, needs_number};
ghost use Rattle.iocm_numbers.specs.Renumbering.{AreAllTouched, ChangesComersAlone, Rise};

use crate::place_walk::PlaceWalk;
use crate::{Numbers, Renumbered};
use iocm_config::Config;
use iocm_types::Place;
use std::alloc::{AllocError, Allocator};

impl<A: Allocator> Numbers<A> {
    /// Numbers the devices of a configuration that has changed, in three steps: those that leave
    /// lose their numbers; those that come in and have one carried along get it; the rest of those
    /// that come in get the lowest free ones, in order of device number. All places that the change
    /// may touch are given, rising, and no others are looked at. No carried number is held by a
    /// device that stays, or carried twice. Gives the numbers that were freed, and those that were
    /// given.
    ///
    /// `AllocError` (M1): memory ran out. The numbers are as before then; room that was made
    /// stays.
    pub fn renumber<B: Allocator, C: Allocator + Copy>(
        &mut self,
        alloc: C,
        config: &Config<B>,
        touched: &[Place],
        carried: &[(Place, u16)],
    ) -> Result<Renumbered<C>, AllocError>
    where
        A: Clone,
        requires rise { Rise touched.now }
        requires all { AreAllTouched config.now.records self.old.numbers touched.now }
        requires free { is_number_taken config.now.records self.old.numbers carried.now ≡ false }
        ensures numbers { OnOk result
            (self.new.numbers ≡ numbers_after config.now.records carried.now self.old.numbers) }
        ensures same { OnErr result (self.new.numbers ≡ self.old.numbers) }
        ensures room { KeepsRoom self.old self.new }
        ensures freed { IfOk result (λ r. r.freed.items ≡ freed_numbers self.old.numbers self.new.numbers) }
        ensures given { IfOk result (λ r. r.given.items ≡ freed_numbers self.new.numbers self.old.numbers) }
    {
        // For the proof alone: what always holds of a configuration and of numbers.
        config.has_own_keys();
        self.are_apart();
        self.have_room();
        let sifted = self.sift(alloc, config, touched)?;
        self.free_rows(sifted.leaving.as_slice());
        let unnumbered = sifted.unnumbered.as_slice();
        match self.give_listed(alloc, config, carried, unnumbered) {
            Ok(given) => Ok(Renumbered {
                freed: sifted.leaving,
                given,
            }),
            Err(error) => {
                self.free_all(unnumbered);
                self.place_all(sifted.leaving.as_slice());
                Err(error)
            }
        }
    }

    /// The second and the third step, and the numbers that the listed places have then. All places
    /// at which a device comes in are listed.
    fn give_listed<B: Allocator, C: Allocator>(
        &mut self,
        alloc: C,
        config: &Config<B>,
        carried: &[(Place, u16)],
        listed: &[Place],
    ) -> Result<Vec<(Place, u16), C>, AllocError>
    where
        A: Clone,
        requires stay { without_leavers config.now.records self.old.numbers ≡ self.old.numbers }
        requires free { is_number_taken config.now.records self.old.numbers carried.now ≡ false }
        ensures numbers { OnOk result (self.new.numbers
            ≡ given_by config.now.records carried.now listed.now self.old.numbers) }
        ensures others { ChangesComersAlone config.now.records self.old.numbers self.new.numbers }
        ensures room { KeepsRoom self.old self.new }
        ensures listed { IfOk result (λ rows. rows.items ≡ numbers_at self.new.numbers listed.now) }
    {
        self.give(config, listed, carried)?;
        self.numbers_at(alloc, listed)
    }

    /// The second and the third step.
    fn give<B: Allocator>(
        &mut self,
        config: &Config<B>,
        places: &[Place],
        carried: &[(Place, u16)],
    ) -> Result<(), AllocError>
    where
        A: Clone,
        requires stay { without_leavers config.now.records self.old.numbers ≡ self.old.numbers }
        requires free { is_number_taken config.now.records self.old.numbers carried.now ≡ false }
        ensures numbers { OnOk result (self.new.numbers
            ≡ given_by config.now.records carried.now places.now self.old.numbers) }
        ensures others { ChangesComersAlone config.now.records self.old.numbers self.new.numbers }
        ensures room { KeepsRoom self.old self.new }
    {
        self.carry(config, carried)?;
        self.fill(config, places)
    }

    /// The second step: devices that come in and have a number carried along get it.
    fn carry<B: Allocator>(
        &mut self,
        config: &Config<B>,
        carried: &[(Place, u16)],
    ) -> Result<(), AllocError>
    where
        A: Clone,
        requires stay { without_leavers config.now.records self.old.numbers ≡ self.old.numbers }
        requires free { is_number_taken config.now.records self.old.numbers carried.now ≡ false }
        ensures numbers { OnOk result
            (self.new.numbers ≡ fold (with_carried config.now.records) self.old.numbers carried.now) }
        ensures others { ChangesComersAlone config.now.records self.old.numbers self.new.numbers }
        ensures room { KeepsRoom self.old self.new }
    {
        self.are_apart();
        let mut walk = PlaceWalk::new(config);
        for row in carried {
            self.carry_one(&mut walk, &row.0, row.1)?;
        }
        Ok(())
    }

    /// A device that comes in gets the number that it has carried along.
    fn carry_one<B: Allocator>(
        &mut self,
        walk: &mut PlaceWalk<'_, B>,
        place: &Place,
        number: u16,
    ) -> Result<(), AllocError>
    where
        A: Clone,
        requires { needs_number walk.old self.old.numbers place.now ≡ true
            → device_at self.old.numbers (cell_at place.now number) ≡ None }
        ensures numbers { OnOk result
            (self.new.numbers ≡ with_carried walk.old self.old.numbers (place.now, number)) }
        ensures same { OnErr result (self.new.numbers ≡ self.old.numbers) }
        ensures room { KeepsRoom self.old self.new }
        ensures walk { walk.new ≡ walk.old }
    {
        if !self.comes_in(walk, place) {
            return Ok(());
        }
        self.room(*place, number)?;
        self.place(*place, number);
        Ok(())
    }

    /// The third step: the rest of those that come in get the lowest free numbers, in the order of
    /// these places.
    fn fill<B: Allocator>(&mut self, config: &Config<B>, places: &[Place]) -> Result<(), AllocError>
    where
        A: Clone,
        ensures numbers { OnOk result
            (self.new.numbers ≡ fold (filled_by config.now.records) self.old.numbers places.now) }
        ensures others { ChangesComersAlone config.now.records self.old.numbers self.new.numbers }
        ensures room { KeepsRoom self.old self.new }
    {
        let mut walk = PlaceWalk::new(config);
        for place in places {
            self.fill_one(&mut walk, place)?;
        }
        Ok(())
    }

    /// A device that comes in gets the lowest free number.
    fn fill_one<B: Allocator>(
        &mut self,
        walk: &mut PlaceWalk<'_, B>,
        place: &Place,
    ) -> Result<(), AllocError>
    where
        A: Clone,
        ensures numbers { OnOk result (self.new.numbers ≡ filled_by walk.old self.old.numbers place.now) }
        ensures same { OnErr result (self.new.numbers ≡ self.old.numbers) }
        ensures room { KeepsRoom self.old self.new }
        ensures walk { walk.new ≡ walk.old }
    {
        if !self.comes_in(walk, place) {
            return Ok(());
        }
        // For the proof alone: there are no more devices in a set than device numbers, so one
        // number is free.
        self.are_apart();
        let _device = place.device.number();
        let Some(number) = self.lowest_free(place.css, place.set) else {
            unreachable!()
        };
        self.room(*place, number)?;
        self.place(*place, number);
        Ok(())
    }

    /// Whether a device comes in at a place: it is reached there and has no number yet. The number
    /// is looked up first, since that takes one search.
    pub(crate) fn comes_in<B: Allocator>(&self, walk: &mut PlaceWalk<'_, B>, place: &Place) -> bool
        ensures needs { result ≡ needs_number walk.old self.now.numbers place.now }
        ensures same { walk.new ≡ walk.old }
    {
        self.number_of(*place).is_none() && walk.is_reached(place)
    }
}
