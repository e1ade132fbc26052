use iocm_board::{Identity, Seat};
use std::marker::Model;

/// From where a thread makes its calls. Contracts see the tag of its system, the core with which
/// that was opened, the names under which it makes calls, its receipts, and how many calls it has
/// seen.
#[derive(Drop)]
pub struct Caller<B: Identity> {
    pub(crate) seat: Seat<B>,
}

impl<B: Identity> Model for Caller<B> {
    ghost use Rattle.iocm_system.specs.Sights.{Sight, sight_of, IsCaller};
    ghost use Rattle.iocm_system.specs.Codes.{sight_code};
    ghost use Rattle.iocm_core.specs.contracts.calling.Core as its_core;
    ghost use Rattle.iocm_board.specs.contracts.view.Borne as its_borne;
    ghost use Rattle.iocm_board.specs.contracts.view.Made as its_made;

    ghost Value = { Sight };

    ghost coded = { sight_code its_core.the_row.coded its_borne.the_row.coded its_made.the_row.coded };

    ghost view = { λ c. sight_of c.seat };

    ghost invariant = { λ c. IsCaller (B.origin c.seat.tag) c.seat.view };
}
