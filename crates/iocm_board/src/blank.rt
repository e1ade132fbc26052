ghost use Rattle.std.specs.Prelude.{◌≡◌, [], true, IfOk};
ghost use Rattle.iocm_board.specs.Views.{first_view};

use crate::board::Board;
use crate::identity::Identity;
use crate::law::Law;
use crate::seat::{Place, Seat};
use crate::view::View;
use atomic_table::Table;
use iocm_core::{Core, Entry};
use std::alloc::{AllocError, Global};
use std::marker::PhantomData;

/// A board that has no name yet, with the keeper's seat.
#[derive(Drop)]
pub struct Blank {
    pub(crate) table: Table<Entry, View, Core, Law, Global>,
    pub(crate) keeper: Place,
    ghost one: { table.shared.table_id.words ≡ 1 },
    ghost ours: { keeper.table_id ≡ table.shared.table_id },
    ghost empty: { keeper.me.1 ≡ [] },
}

impl Blank {
    /// A board for a core, whose word says how many calls its trace has; and the keeper's seat,
    /// which knows them, and bears the first name.
    ///
    /// M1: memory ran out.
    pub fn new(alloc: Global, core: &Core) -> Result<Blank, AllocError>
        ensures { IfOk result (λ blank. blank.keeper.me.0 ≡ first_view core.now) }
    {
        let (table, keeper) = Table::of_words(alloc, &[core.len() as u64], core)?;
        Ok(Blank { table, keeper })
    }

    /// Names the board: which table and which core `B` has at this tag. It gives the board, and the
    /// keeper's seat.
    pub fn named<B: Identity>(self, tag: u64) -> (Board<B>, Seat<B>)
        requires table { self.table.shared.table_id ≡ B.table tag }
        requires origin { self.keeper.me.0.origin ≡ B.origin tag }
        requires live { self.keeper.me.0.live ≡ true }
        ensures board { result.0.tag ≡ tag }
        ensures seat { result.1 ≡ record { tag = tag; view = self.keeper.me.0 } }
    {
        let Blank { table, keeper } = self;
        let board = Board {
            table,
            tag,
            of: PhantomData,
        };
        let seat = Seat {
            place: keeper,
            tag,
            of: PhantomData,
        };
        (board, seat)
    }
}
