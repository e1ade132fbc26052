ghost use Rattle.std.specs.Prelude.{All, IfOk};
ghost use Rattle.iocm_types.specs.Fault.{Gives};
ghost use Rattle.iocm_script.specs.Scripts.{FitsQueue, script_in};

use crate::Script;
use crate::lines::read_cards_of_script;
use crate::script::make_rounds;
use iocm_columns::cards;
use iocm_types::Fault;
use std::alloc::Global;

/// The script of these bytes, for a command line with so many change decks.
///
/// L1 and L2 of any line come first, as `cards` answers them. Then the first line with a fault
/// decides, and in it the first of these: K1, it is no line of a script; K2, it names a change deck
/// that the command line doesn't have; K3, it is the fifteenth line of operators in its round, P's
/// and Q's counted together. M1 without memory. Source: own.
///
/// Promise: a script is read exactly, or the first of L1, L2, K1, K2 and K3 is answered.
#[tactic(auto, using(crate::proofs::Fitting::rounds_fit))]
pub fn read_script(alloc: Global, text: &[u8], changes: u64) -> Result<Script, Fault>
    ensures script { Gives (λ s. s) result (script_in changes text.now) }
    ensures room { IfOk result (λ s. All FitsQueue s) }
{
    let cards = cards(alloc, text)?;
    let lines = read_cards_of_script(alloc, changes, &cards)?;
    Ok(make_rounds(alloc, &lines)?)
}
