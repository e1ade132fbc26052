ghost use Rattle.std.specs.Prelude.{◌≡◌, true, IsTrue, ◌↔◌};
ghost use Rattle.iocm_board.specs.Names.{BearsSome};
ghost use Rattle.iocm_board.specs.Steps.{HasAll, Looks};
ghost use Rattle.iocm_board.specs.Views.{lends, borrows, both};

use crate::identity::Identity;
use crate::law::{BothViews, Compare, Law, Lend, Look};
use crate::seat::Seat;
use crate::view::View;
use atomic_table::Table;
use iocm_core::{Core, Entry};
use std::alloc::Global;
use std::marker::PhantomData;

/// A board: a word that says how many calls are published. Any thread may read it from its seat,
/// without the lock.
#[derive(Drop)]
pub struct Board<B: Identity> {
    pub(crate) table: Table<Entry, View, Core, Law, Global>,
    pub(crate) tag: u64,
    pub(crate) of: PhantomData<B>,
    ghost named: { table.shared.table_id ≡ B.table tag },
    ghost one: { table.shared.table_id.words ≡ 1 },
}

impl<B: Identity> Board<B> {
    /// Whether the seat is one of this board, by its tag.
    pub fn is_mine(&self, seat: &Seat<B>) -> bool
        ensures { IsTrue result ↔ (seat.now.tag ≡ self.now.tag) }
    {
        self.tag == seat.tag
    }

    /// How many calls are published: at least as many as the seat had seen. It takes no lock and no
    /// memory, and waits for nobody.
    pub fn look(&self, seat: &mut Seat<B>) -> u64
        requires mine { seat.old.tag ≡ self.now.tag }
        ensures looked { Looks seat.old.view result seat.new.view }
        ensures tag { seat.new.tag ≡ seat.old.tag }
    {
        self.table.shared.load::<Look>(&mut seat.place, 0)
    }

    /// A new seat, to which a name is lent: it has seen as much, and has no receipt.
    pub fn split(&self, seat: &mut Seat<B>) -> Seat<B>
        requires mine { seat.old.tag ≡ self.now.tag }
        requires names { BearsSome seat.old.view.names }
        ensures kept { seat.new ≡ record { tag = seat.old.tag; view = lends seat.old.view } }
        ensures given { result ≡ record { tag = seat.old.tag; view = borrows seat.old.view } }
    {
        Seat {
            place: self.table.shared.split_seat::<Lend>(&mut seat.place),
            tag: seat.tag,
            of: PhantomData,
        }
    }

    /// One seat of two: it bears the names and has the receipts of both, and has seen what the one
    /// has that had seen more.
    pub fn join(&self, seat: &mut Seat<B>, other: Seat<B>)
        requires mine { seat.old.tag ≡ self.now.tag }
        requires other { other.tag ≡ self.now.tag }
        ensures { seat.new ≡ record { tag = seat.old.tag; view = both seat.old.view other.view } }
    {
        let Seat {
            place,
            tag: _,
            of: _,
        } = other;
        self.table
            .shared
            .join_seat::<BothViews>(&mut seat.place, place);
    }

    /// Compares the receipts of a seat that keeps the list with all entries: those of a whole seat
    /// are all entries since the board was made, each at its number, once.
    pub fn compare(&self, seat: &mut Seat<B>)
        requires mine { seat.old.tag ≡ self.now.tag }
        requires keeps { seat.old.view.keeps ≡ true }
        ensures same { seat.new ≡ seat.old }
        ensures all { HasAll seat.old.view }
    {
        self.table.shared.load::<Compare>(&mut seat.place, 0);
    }
}
