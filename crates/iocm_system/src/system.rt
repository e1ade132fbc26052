ghost use Rattle.std.specs.Prelude.{◌≡◌, ◌≤◌, [], length, IsTrue, ◌↔◌};
ghost use Rattle.iocm_board.specs.Names.{fresh};
ghost use Rattle.iocm_board.specs.Views.{first_view};
ghost use Rattle.iocm_system.specs.Sights.{borrowed, joined, lends_one, sees_now};

use crate::caller::Caller;
use crate::desk::Desk;
use iocm_board::{Board, Identity, Seat};
use iocm_core::Core;
use std::alloc::Global;
use std::sync::Mutex;

/// One machine, on which many threads make calls, each from a caller of its own.
#[derive(Drop)]
pub struct System<B: Identity> {
    pub(crate) board: Board<B>,
    pub(crate) desk: Mutex<Desk<B>>,
    pub(crate) alloc: Global,
}

impl<B: Identity> System<B> {
    /// Puts a core under the lock, with the board and the keeper's seat that were made for it. It
    /// gives the first caller.
    pub fn open(
        alloc: Global,
        core: Core,
        board: Board<B>,
        mut keeper: Seat<B>,
    ) -> (System<B>, Caller<B>)
        requires board { keeper.tag ≡ board.tag }
        requires keeper { keeper.view ≡ first_view core }
        ensures system { result.0.board.tag ≡ board.tag }
        ensures caller { result.1 ≡ record {
          tag = board.tag;
          origin = core;
          names = fresh [];
          receipts = [];
          seen = length core.entries;
        } }
    {
        // For the proof alone: the seat knows the core of its board.
        keeper.is_known();
        let list = board.set_back(&mut keeper);
        let desk = Mutex::new(Desk { core, keeper: list });
        let system = System { board, desk, alloc };
        (system, Caller { seat: keeper })
    }

    /// Whether a caller is one of this system, by its tag.
    pub fn is_mine(&self, me: &Caller<B>) -> bool
        ensures { IsTrue result ↔ (me.now.tag ≡ self.now.board.tag) }
    {
        self.board.is_mine(&me.seat)
    }

    /// How many calls are published: at least as many as the caller had seen. It takes no lock and
    /// no memory, and waits for nobody.
    ///
    /// Promise: whoever looks beside threads never sees the count of calls fall.
    pub fn seen(&self, me: &mut Caller<B>) -> u64
        requires mine { me.old.tag ≡ self.now.board.tag }
        ensures later { me.old.seen ≤ result }
        ensures caller { me.new ≡ sees_now me.old result }
    {
        self.board.look(&mut me.seat)
    }

    /// A new caller, for another thread: it has seen as much as this one, and has no receipt. It
    /// takes no memory.
    pub fn split(&self, me: &mut Caller<B>) -> Caller<B>
        requires mine { me.old.tag ≡ self.now.board.tag }
        ensures kept { me.new ≡ lends_one me.old }
        ensures given { result ≡ borrowed me.old }
    {
        Caller {
            seat: self.board.split(&mut me.seat),
        }
    }

    /// One caller of two: it has the receipts of both, by their numbers, and has seen what the one
    /// has that had seen more.
    pub fn join(&self, mut me: Caller<B>, other: Caller<B>) -> Caller<B>
        requires mine { me.tag ≡ self.now.board.tag }
        requires other { other.tag ≡ self.now.board.tag }
        ensures { result ≡ joined me other }
    {
        let Caller { seat } = other;
        self.board.join(&mut me.seat, seat);
        me
    }
}
