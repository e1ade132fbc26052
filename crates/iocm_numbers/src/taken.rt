ghost use Rattle.std.specs.Prelude.{◌≡◌, ◌&&◌, [], filter, IfOk, IsOk, OnOk};
ghost use Rattle.std.specs.List.{list_any};
ghost use Rattle.std.specs.FinMap.{entries};
ghost use Rattle.iocm_types.specs.Place.{cell_cmp};
ghost use Rattle.iocm_table.specs.Slots.{rows};
ghost use Rattle.iocm_model.specs.Machine.Numbering.{is_reached_at};
ghost use Rattle.iocm_model.specs.Change.Renumbering.{comes_in, without_leavers};
ghost use Rattle.iocm_model.specs.Change.Refusal.{has_cell_twice, is_number_taken, same_cell};
ghost use Rattle.iocm_numbers.specs.Taken.{is_noted, with_noted};

use crate::Numbers;
use crate::numbers::cell_of;
use crate::place_walk::PlaceWalk;
use crate::reached::is_place_reached;
use iocm_config::Config;
use iocm_table::Table;
use iocm_types::{DevNo, NumberCell, Place};
use std::alloc::{AllocError, Allocator};

impl<A: Allocator> Numbers<A> {
    /// Whether a carried number is taken (E4): of the devices that come in with a configuration one
    /// has a number that a device holds that stays, or two have one number. A number that is
    /// carried for a device that doesn't come in, or that a device holds that leaves, is not taken.
    /// The time is that of some look-ups for each carried number.
    ///
    /// `AllocError` (M1): memory ran out, which can't be where no number is carried.
    pub fn is_taken<B: Allocator, C: Allocator + Clone>(
        &self,
        alloc: C,
        config: &Config<B>,
        carried: &[(Place, u16)],
    ) -> Result<bool, AllocError>
        ensures taken { IfOk result (λ taken. taken ≡ is_number_taken config.now.records self.now.numbers carried.now) }
        ensures none { carried.now ≡ [] → IsOk result }
    {
        if self.is_one_held(config, carried) {
            return Ok(true);
        }
        self.is_one_twice(alloc, config, carried)
    }

    /// Whether a device that stays holds a number with which another comes in.
    fn is_one_held<B: Allocator>(&self, config: &Config<B>, carried: &[(Place, u16)]) -> bool
        ensures { result ≡ list_any
            (λ row. list_any (same_cell row) (entries (without_leavers config.now.records self.now.numbers)))
            (filter (comes_in config.now.records self.now.numbers) carried.now) }
    {
        let mut walk = PlaceWalk::new(config);
        for row in carried {
            if self.comes_in(&mut walk, &row.0) && self.is_held(config, row) {
                return true;
            }
        }
        false
    }

    /// Whether a device that stays holds the number of a row.
    fn is_held<B: Allocator>(&self, config: &Config<B>, row: &(Place, u16)) -> bool
        ensures { result
            ≡ list_any (same_cell row.now) (entries (without_leavers config.now.records self.now.numbers)) }
    {
        // For the proof alone: no number comes twice.
        self.are_apart();
        match self.device_at(cell_of(&row.0, row.1)) {
            Some(device) => is_device_kept(config, &row.0, device),
            None => false,
        }
    }

    /// Whether two devices come in with one number.
    fn is_one_twice<B: Allocator, C: Allocator + Clone>(
        &self,
        alloc: C,
        config: &Config<B>,
        carried: &[(Place, u16)],
    ) -> Result<bool, AllocError>
        ensures none { carried.now ≡ [] → IsOk result }
        ensures twice { IfOk result (λ twice. twice
            ≡ has_cell_twice (filter (comes_in config.now.records self.now.numbers) carried.now)) }
    {
        let mut seen = Table::new(alloc);
        let mut walk = PlaceWalk::new(config);
        for row in carried {
            if self.note(&mut walk, &mut seen, row)? {
                return Ok(true);
            }
        }
        Ok(false)
    }

    /// Notes the number of a row if its device comes in. Whether it does, and the number was noted
    /// before.
    fn note<B: Allocator, C: Allocator + Clone>(
        &self,
        walk: &mut PlaceWalk<'_, B>,
        seen: &mut Table<NumberCell, (), C>,
        row: &(Place, u16),
    ) -> Result<bool, AllocError>
        ensures again { IfOk result (λ again. again ≡ (comes_in walk.old self.now.numbers row.now
            && is_noted (rows cell_cmp seen.old) row.now)) }
        ensures noted { OnOk result (rows cell_cmp seen.new
            ≡ with_noted walk.old self.now.numbers (rows cell_cmp seen.old) row.now) }
        ensures same { walk.new ≡ walk.old }
    {
        if !self.comes_in(walk, &row.0) {
            return Ok(false);
        }
        let cell = cell_of(&row.0, row.1);
        seen.room(cell)?;
        Ok(seen.put(&cell, ()).is_some())
    }
}

/// Whether a device stays in the channel subsystem and set of a place.
fn is_device_kept<B: Allocator>(config: &Config<B>, place: &Place, device: DevNo) -> bool
    ensures { result ≡ is_reached_at config.now.records
        (record { css = place.now.css; set = place.now.set; device = device }) }
{
    let kept = Place {
        css: place.css,
        set: place.set,
        device,
    };
    is_place_reached(config, kept)
}
