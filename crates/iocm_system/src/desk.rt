ghost use Rattle.std.specs.Prelude.{◌≡◌, ◌≤◌, ◌++◌, ◌∷◌, [], length, IfOk, IfErr};
ghost use Rattle.iocm_board.specs.Views.{with_receipt};
ghost use Rattle.iocm_core.specs.Calls.{call_in};
ghost use Rattle.iocm_core.specs.Recorded.{IsRecorded};
ghost use Rattle.iocm_system.specs.Asking.{asked_by};
ghost use Rattle.iocm_system.specs.Sights.{IsCaller};
ghost use Rattle.iocm_system.specs.Backs.{IsBackAt};

use crate::asked::Asked;
use crate::receipt::{Back, Receipt};
use iocm_board::{Board, Identity, Seat};
use iocm_core::{Call, Core, Full};
use iocm_types::Rule;
use std::alloc::Global;
use std::marker::Model;

/// What lies under the lock: the core, and the keeper's seat, which knows every entry of its trace.
/// Contracts see the core.
#[derive(Drop)]
pub struct Desk<B: Identity> {
    pub(crate) core: Core,
    pub(crate) keeper: Seat<B>,
}

impl<B: Identity> Model for Desk<B> {
    ghost use Rattle.iocm_core.specs.Seen as seen;
    ghost use Rattle.iocm_core.specs.contracts.calling.Core as its_core;
    ghost use Rattle.iocm_system.specs.Sights.{IsKeeper};

    ghost Value = { seen.Core };

    ghost coded = { its_core.the_row.coded };

    ghost view = { λ d. d.core };

    ghost invariant = { λ d. IsKeeper (B.origin d.keeper.tag) d.core d.keeper.view };
}

impl<B: Identity> Desk<B> {
    /// Makes a whole call: on the core, which records it; and on the board, which publishes it. The
    /// receipt is the caller's.
    ///
    /// X1: the keeper's seat is not this board's. O3: the trace has no room; the caller has then
    /// seen as many calls as there is room for. Either hands the call back.
    pub fn make(
        &mut self,
        alloc: Global,
        board: &Board<B>,
        me: &mut Seat<B>,
        call: Call,
    ) -> Result<Receipt, Back>
        requires mine { me.old.tag ≡ board.now.tag }
        requires caller { IsCaller (B.origin me.old.tag) me.old.view }
        ensures asked { IfOk result (λ r. r.asked ≡ asked_by call) }
        ensures recorded { IfOk result (λ r. IsRecorded self.old (call_in call) r.answer self.new) }
        ensures entry { IfOk result (λ r. (r.number ≡ length self.old.entries)
            × (self.new.entries ≡ self.old.entries ++ record { call = call; answer = r.answer } ∷ [])) }
        ensures receipt { IfOk result (λ r. (me.old.view.seen ≤ r.number)
            × (me.new ≡ record me.old {
              view = with_receipt me.old.view r.number (record { call = call; answer = r.answer });
            })) }
        ensures back { IfErr result (λ b. (b.call ≡ call) × (self.new ≡ self.old)
            × IsBackAt (B.origin board.now.tag).room b.rule me.old me.new) }
    {
        if !board.is_mine(&self.keeper) {
            return Err(Back {
                rule: Rule::X1,
                call,
            });
        }
        let asked = Asked::by(&call);
        match self.core.call(alloc, call) {
            Ok(answer) => {
                let number = (self.core.len() - 1) as u64;
                board.take_up(me, &mut self.keeper);
                board.publish(me, number, self.core.last());
                self.keeper = board.set_back(me);
                Ok(Receipt {
                    number,
                    asked,
                    answer,
                })
            }
            Err(Full { call }) => {
                board.take_up(me, &mut self.keeper);
                board.look(me);
                self.keeper = board.set_back(me);
                Err(Back {
                    rule: Rule::O3,
                    call,
                })
            }
        }
    }
}
