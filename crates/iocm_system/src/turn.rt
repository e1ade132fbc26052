ghost use Rattle.std.specs.Prelude.{◌≡◌, ◌++◌, [], None, Some, IfSome};
ghost use Rattle.iocm_system.specs.Turns.{handed_back, EndsATurn, IsTurn};

use crate::caller::Caller;
use crate::gate::Gate;
use crate::receipt::{Back, Receipt};
use crate::system::System;
use iocm_board::Identity;
use iocm_core::Call;
use iocm_types::Rule;
use std::collections::VecDeque;
use std::sync::Wait;

/// The calls that a thread made one after the other.
#[derive(Drop)]
pub struct Turn<B: Identity> {
    /// Its caller.
    pub caller: Caller<B>,
    /// What came of the calls.
    pub ran: Ran,
}

/// What came of calls that were to be made one after the other.
#[derive(Drop)]
pub struct Ran {
    /// The receipts of those that were made, in their order.
    pub receipts: Vec<Receipt>,
    /// The next one, if it was handed back: O3 or X1, as `System::operate` has them; G1, the gate
    /// did not let it through; or M1, there was no memory for its receipt. With G1 and M1 it was
    /// not made.
    pub back: Option<Back>,
    /// Those behind it, which were not tried.
    pub left: VecDeque<Call>,
}

/// Makes calls one after the other, until none is left or one is handed back. Each passes the gate.
pub fn in_turn<B: Identity, R: Wait, G: Gate>(
    rt: &R,
    gate: &G,
    system: &System<B>,
    mut me: Caller<B>,
    mut calls: VecDeque<Call>,
) -> Turn<B>
    requires mine { me.tag ≡ system.now.board.tag }
    ensures turn { IsTurn calls.items me result.caller result.ran.receipts.items
        (handed_back result.ran.back ++ result.ran.left.items) }
    ensures ends { result.ran.back ≡ None → result.ran.left.items ≡ [] }
    ensures why { IfSome result.ran.back (λ b. EndsATurn b.rule result.caller) }
{
    let mut receipts = Vec::new(system.alloc);
    while let Some(call) = calls.pop_front() {
        if receipts.reserve(1).is_err() {
            return ended(me, receipts, Rule::M1, call, calls);
        }
        let index = receipts.len();
        if !gate.before(index) {
            return ended(me, receipts, Rule::G1, call, calls);
        }
        match system.operate(rt, &mut me, call) {
            Ok(receipt) => receipts.push_reserved(receipt),
            Err(back) => return ended(me, receipts, back.rule, back.call, calls),
        }
        gate.after(index);
    }
    let ran = Ran {
        receipts,
        back: None,
        left: calls,
    };
    Turn { caller: me, ran }
}

/// A turn that ends with a call handed back.
fn ended<B: Identity>(
    caller: Caller<B>,
    receipts: Vec<Receipt>,
    rule: Rule,
    call: Call,
    left: VecDeque<Call>,
) -> Turn<B>
    ensures { result ≡ record {
      caller = caller;
      ran = record { receipts = receipts; back = Some (record { rule = rule; call = call }); left = left };
    } }
{
    let ran = Ran {
        receipts,
        back: Some(Back { rule, call }),
        left,
    };
    Turn { caller, ran }
}
