ghost use Rattle.std.specs.Prelude.{◌≡◌, true, IfOk, IfErr};
ghost use Rattle.iocm_history.specs.Legal.{IsLegal};
ghost use Rattle.iocm_board.specs.Names.{is_whole};
ghost use Rattle.iocm_board.specs.Steps.{TellAll};
ghost use Rattle.iocm_core.specs.Told.{IsTold};
ghost use Rattle.iocm_types.specs.declared.rule.Rule.TheVariants as rules;

use crate::caller::Caller;
use crate::desk::Desk;
use crate::system::System;
use iocm_board::Identity;
use iocm_core::Core;
use iocm_types::Rule;

/// A system that can't be closed by a caller, since what lies under its lock is not of it.
#[derive(Drop)]
pub struct Unclosed {
    /// X1.
    pub rule: Rule,
    /// The core that lay there.
    pub core: Core,
}

impl<B: Identity> System<B> {
    /// Closes the system with its one caller, to which all others were joined, and gives the core.
    /// Its trace is a legal history, from the state in which the core was opened; and behind the
    /// entries that it had when the system was opened stand those of the caller's receipts, each at
    /// its number, once, and no others.
    ///
    /// X1: what lies under the lock is not of this system.
    ///
    /// Promise: whatever the threads did, it was one run of calls, and each receipt tells its own.
    pub fn close(self, me: Caller<B>) -> Result<Core, Unclosed>
        requires mine { me.tag ≡ self.board.tag }
        requires whole { is_whole me.names ≡ true }
        ensures opening { IfOk result (λ core. core.opening ≡ me.origin.opening) }
        ensures room { IfOk result (λ core. core.room ≡ me.origin.room) }
        ensures legal { IfOk result (λ core. IsLegal core.opening core.history) }
        ensures told { IfOk result (λ core. IsTold core.history core.entries) }
        ensures all { IfOk result (λ core. TellAll me.origin me.receipts core.entries) }
        ensures not_mine { IfErr result (λ e. e.rule ≡ rules.X1) }
    {
        let System {
            board,
            desk,
            alloc: _,
        } = self;
        let Desk { core, mut keeper } = desk.into_inner();
        if !board.is_mine(&keeper) {
            return Err(Unclosed {
                rule: Rule::X1,
                core,
            });
        }
        let Caller { mut seat } = me;
        board.take_up(&mut seat, &mut keeper);
        board.compare(&mut seat);
        // For the proof alone: the history is legal.
        core.is_legal();
        Ok(core)
    }
}
