ghost use Rattle.std.specs.Prelude.{◌≡◌, [], IsOk, OnErr, OnOk};
ghost use Rattle.std.specs.Borrow.{sem};
ghost use Rattle.std.specs.Option.{option_copied, option_copied_mut};
ghost use Rattle.std.specs.FinMap as map;
ghost use Rattle.iocm_seats.specs.Lent.{lends_seat};
ghost use Rattle.iocm_seats.specs.Listing.{with_seat};
ghost use Rattle.iocm_seats.specs.Seated.{views_seated, lives_seated, HasPlace, KeepsPlaces, SeatsHavePlaces};

use crate::KeptSeat;
use iocm_grid::Grid;
use iocm_types::{Live, SubId, View};
use std::alloc::{AllocError, Allocator, Global};
use std::marker::Model;

/// The seats of a machine, by subchannel, each found by its place. A subchannel whose seat is taken
/// out keeps its place. Contracts see the finite map of the seats, and the subchannels that have a
/// place, which can be given a seat without memory.
#[derive(Drop)]
pub struct Seats<A: Allocator = Global> {
    grid: Grid<KeptSeat, A>,
}

impl<A: Allocator> Model for Seats<A> {
    ghost use Rattle.std.specs.Prelude.{List, refl};
    ghost use Rattle.std.specs.FinMap as map;
    ghost use Rattle.std.specs.Coded.{code_by, coded×, coded_list, codes};
    ghost use Rattle.iocm_types.specs.declared.sub_id.SubId.{SubId};
    ghost use Rattle.iocm_seats.specs.Seated as seated;

    ghost Value = { seated.Seated };

    ghost coded = { code_by (seated.Seats × List SubId)
        (coded× (map.code (Prim.hlevel codes) (Prim.hlevel codes)) (coded_list (Prim.hlevel codes)))
        (λ s. (s.seats, s.places)) (λ p. record { seats = p.0; places = p.1 }) (λ _. refl) };

    ghost view = { λ s. record { seats = s.grid.rows; places = s.grid.places } };
}

impl<A: Allocator> Seats<A> {
    /// No seats and no places. Can't run out of memory.
    pub fn new(alloc: A) -> Self
        ensures seats { result.seats ≡ map.empty }
        ensures places { result.places ≡ [] }
    {
        Seats {
            grid: Grid::new(alloc),
        }
    }

    /// Gives a subchannel a place, if it has none, and this seat.
    ///
    /// `AllocError` (M1): memory ran out. Then no seat has changed.
    pub(crate) fn add(&mut self, subchannel: SubId, seat: KeptSeat) -> Result<(), AllocError>
    where
        A: Clone,
        ensures seats { OnOk result (self.new.seats ≡ with_seat self.old.seats (subchannel, seat)) }
        ensures err { OnErr result (self.new.seats ≡ self.old.seats) }
    {
        let _ = self.grid.add(&subchannel, seat)?;
        Ok(())
    }

    /// How many seats there are.
    pub fn len(&self) -> usize
        ensures { result ≡ map.len self.now.seats }
    {
        self.grid.len()
    }

    /// The seat of a subchannel, if it has one.
    pub fn get(&self, subchannel: &SubId) -> Option<&KeptSeat>
        ensures { option_copied result ≡ map.get self.now.seats subchannel.now }
    {
        self.grid.get(subchannel)
    }

    /// The seat of a subchannel, to be changed in its place. Can't run out of memory.
    pub fn get_mut(&mut self, subchannel: &SubId) -> Option<&mut KeptSeat>
        ensures* writes_back { sem 𝓛 (lends_seat A.row A.Allocator self.entry subchannel.now result) }
        ensures value { option_copied_mut result ≡ map.get self.old.seats subchannel.now }
    {
        self.grid.get_mut(subchannel)
    }

    /// What is seen at a subchannel, if it has a seat.
    pub fn view(&self, subchannel: SubId) -> Option<View>
        ensures { result ≡ map.get (views_seated self.now.seats) subchannel }
    {
        match self.get(&subchannel) {
            Some(seat) => Some(seat.view()),
            None => None,
        }
    }

    /// The live record of a subchannel, if it has a seat.
    pub fn live(&self, subchannel: SubId) -> Option<Live>
        ensures { result ≡ map.get (lives_seated self.now.seats) subchannel }
    {
        match self.get(&subchannel) {
            Some(seat) => Some(seat.live()),
            None => None,
        }
    }

    /// A subchannel that has a seat has a place. It reads nothing, and is there for callers'
    /// proofs: a seat that is replaced needs no call of `room`.
    pub fn has_places(&self)
        ensures { SeatsHavePlaces self.now }
    {
        self.grid.has_places();
    }

    /// Gives a subchannel a place, if it has none. No other loses its place, and no seat changes.
    ///
    /// `AllocError` (M1): memory ran out, which can't be where the subchannel has a place
    /// already.
    pub fn room(&mut self, subchannel: SubId) -> Result<(), AllocError>
    where
        A: Clone,
        ensures seats { self.new.seats ≡ self.old.seats }
        ensures ok { OnOk result (HasPlace self.new subchannel) }
        ensures kept { KeepsPlaces self.old self.new }
        ensures succeeds { HasPlace self.old subchannel → IsOk result }
    {
        self.grid.room(&subchannel)
    }

    /// Gives a subchannel that has a place a seat, and gives back the one that it had. Can't run
    /// out of memory.
    pub fn put(&mut self, subchannel: &SubId, seat: KeptSeat) -> Option<KeptSeat>
        requires { HasPlace self.old subchannel.now }
        ensures before { result ≡ map.get self.old.seats subchannel.now }
        ensures seats { self.new.seats ≡ map.insert self.old.seats subchannel.now seat }
        ensures places { self.new.places ≡ self.old.places }
    {
        self.grid.put(subchannel, seat)
    }

    /// Takes the seat of a subchannel out, if it has one. Its place stays. Can't run out of
    /// memory.
    pub fn take(&mut self, subchannel: &SubId) -> Option<KeptSeat>
        ensures before { result ≡ map.get self.old.seats subchannel.now }
        ensures seats { self.new.seats ≡ map.remove self.old.seats subchannel.now }
        ensures places { self.new.places ≡ self.old.places }
    {
        self.grid.take(subchannel)
    }
}
