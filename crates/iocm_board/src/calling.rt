ghost use Rattle.std.specs.Prelude.{◌≡◌, ◌+◌, ◌^◌, ◌<◌, ◌≤◌, true, length};
ghost use Rattle.iocm_board.specs.Names.{BearsSome};
ghost use Rattle.iocm_board.specs.Views.{adds, caller_of, keeper_of, takes};

use crate::board::Board;
use crate::identity::Identity;
use crate::law::{Publish, SetBack, TakeUp};
use crate::seat::Seat;
use iocm_core::Entry;
use std::marker::PhantomData;

// The three steps of a call, under the lock.
impl<B: Identity> Board<B> {
    /// Takes up the list: the caller's seat has it, and has seen what the keeper's seat had. The
    /// keeper's seat knows nothing more then.
    pub fn take_up(&self, me: &mut Seat<B>, keeper: &mut Seat<B>)
        requires mine { me.old.tag ≡ self.now.tag }
        requires keepers { keeper.old.tag ≡ self.now.tag }
        requires keeps { keeper.old.view.keeps ≡ true }
        ensures { me.new ≡ record { tag = me.old.tag; view = takes me.old.view keeper.old.view } }
    {
        let list = self.set_back(keeper);
        let Seat {
            place,
            tag: _,
            of: _,
        } = list;
        self.table.shared.join_seat::<TakeUp>(&mut me.place, place);
    }

    /// Publishes an entry: the word is one more, and the entry is in the list and among the
    /// receipts, at the number that the word was.
    pub fn publish(&self, me: &mut Seat<B>, count: u64, entry: &Entry)
        requires mine { me.old.tag ≡ self.now.tag }
        requires keeps { me.old.view.keeps ≡ true }
        requires names { BearsSome me.old.view.names }
        requires count { count ≡ length me.old.view.list }
        requires fits { count + 1 < 2 ^ 64 }
        ensures added { me.new ≡ record { tag = me.old.tag; view = adds me.old.view entry.now } }
        ensures seen { me.old.view.seen ≤ count }
    {
        self.table
            .shared
            .compare_exchange_with::<Publish>(&mut me.place, 0, count, count + 1, entry);
    }

    /// Sets the list back: the seat gives it to a new one, which keeps it for the next caller.
    pub fn set_back(&self, me: &mut Seat<B>) -> Seat<B>
        requires mine { me.old.tag ≡ self.now.tag }
        requires keeps { me.old.view.keeps ≡ true }
        ensures kept { me.new ≡ record { tag = me.old.tag; view = caller_of me.old.view } }
        ensures given { result ≡ record { tag = me.old.tag; view = keeper_of me.old.view } }
    {
        Seat {
            place: self.table.shared.split_seat::<SetBack>(&mut me.place),
            tag: me.tag,
            of: PhantomData,
        }
    }
}
