ghost use Rattle.std.specs.Prelude.{◌≡◌};

use crate::identity::Identity;
use crate::view::View;
use iocm_core::Entry;
use std::marker::{Model, PhantomData};

/// A seat of the board's table.
pub type Place = atomic_table::Seat<Entry, View>;

/// A seat at a board. Contracts see the board's tag, and what the seat knows.
#[derive(Drop)]
pub struct Seat<B: Identity> {
    pub(crate) place: Place,
    pub(crate) tag: u64,
    pub(crate) of: PhantomData<B>,
}

impl<B: Identity> Model for Seat<B> {
    ghost use Rattle.std.specs.Prelude.{◌≡◌, [], true};
    ghost use Rattle.iocm_board.specs.Views.{Held};
    ghost use Rattle.iocm_board.specs.Codes.{held_code};
    ghost use Rattle.iocm_board.specs.contracts.view.View as its_view;

    ghost Value = { Held };

    ghost coded = { held_code its_view.the_row.coded };

    ghost view = { λ s. record { tag = s.tag; view = s.place.me.0 } };

    ghost invariant = { λ s. (s.place.table_id ≡ B.table s.tag) × (s.place.me.1 ≡ [])
        × (s.place.me.0.live ≡ true) × (s.place.me.0.origin ≡ B.origin s.tag) };
}

impl<B: Identity> Seat<B> {
    /// What always holds of a seat: it is in use, and knows the core of its board. It reads
    /// nothing, and is there for callers' proofs.
    pub fn is_known(&self)
        ensures { self.now.view.origin ≡ B.origin self.now.tag }
    {
        let _ = &self.tag;
    }
}
