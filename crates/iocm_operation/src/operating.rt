//! A script is run, round by round, on the system of a machine.
ghost use Rattle.std.specs.Prelude.{◌≡◌, ◌<◌, [], true, All, IfOk};
ghost use Rattle.std.specs.List.{AllByRecursion};
ghost use Rattle.iocm_board.specs.Names.{is_whole};
ghost use Rattle.iocm_board.specs.Views.{first_view};
ghost use Rattle.iocm_board.specs.declared.view.Made as its_made;
ghost use Rattle.iocm_operation.specs.Answering.{answers_at};
ghost use Rattle.iocm_operation.specs.Asked.{trees_in};
ghost use Rattle.iocm_operation.specs.Running.{IsOperation};
ghost use Rattle.iocm_operation.specs.SoFar.{GoesOn, IsSoFar};
ghost use Rattle.iocm_script.specs.Scripts.{FitsQueue};

use crate::answering::answer_lines;
use crate::asking::round_of;
use crate::operated::Operated;
use crate::placed::Placed;
use crate::placing::{Hands, place_lines};
use crate::round::{Ran, run_round};
use iocm_board::{Blank, Identity};
use iocm_core::{Closed, Core};
use iocm_script::{Line, Script};
use iocm_system::{Caller, System};
use iocm_tree::Tree;
use iocm_types::{List, Rule};
use std::alloc::Global;
use std::marker::Brand;
use std::sync::Wait;
use std::thread::Threads;

/// What came of the rounds so far.
#[derive(Drop)]
struct SoFar<B: Identity> {
    caller: Caller<B>,
    places: Vec<Placed>,
}

/// Runs one round more.
fn go_on<B: Identity + Send + Sync, R: Threads + Wait + Sync>(
    rt: &R,
    alloc: Global,
    system: &System<B>,
    so_far: SoFar<B>,
    trees: &[Tree],
    lines: &[Line],
) -> Result<SoFar<B>, Rule>
    requires mine { so_far.caller.tag ≡ system.now.board.tag }
    requires whole { is_whole so_far.caller.names ≡ true }
    requires below { AllByRecursion (λ (m : its_made.Made). m.number < so_far.caller.seen) so_far.caller.receipts }
    requires fits { FitsQueue lines.now }
    ensures { IfOk result (λ more. GoesOn (trees_in trees.now) lines.now so_far more) }
{
    let SoFar { caller, mut places } = so_far;
    let Ok(round) = round_of(alloc, trees, lines) else {
        return Err(Rule::M1);
    };
    let Ran {
        caller,
        p,
        q,
        a,
        b,
        stopped,
    } = run_round(rt, alloc, system, caller, round);
    match stopped {
        Some(rule) => return Err(rule),
        None => {}
    }
    let hands = Hands {
        p: p.as_slice(),
        q: q.as_slice(),
        a: a.as_slice(),
        b: b.as_slice(),
    };
    let Ok(()) = place_lines(lines, hands, &mut places) else {
        return Err(Rule::M1);
    };
    Ok(SoFar { caller, places })
}

/// Runs rounds, one after the other.
fn run_rounds<B: Identity + Send + Sync, R: Threads + Wait + Sync>(
    rt: &R,
    alloc: Global,
    system: &System<B>,
    me: Caller<B>,
    trees: &[Tree],
    rounds: &[List<Line>],
) -> Result<SoFar<B>, Rule>
    requires mine { me.tag ≡ system.now.board.tag }
    requires whole { is_whole me.names ≡ true }
    requires new { me.receipts ≡ [] }
    requires fits { All FitsQueue rounds.now }
    ensures { IfOk result (λ done. IsSoFar (trees_in trees.now) rounds.now me done.caller done.places.items) }
{
    let mut so_far = SoFar {
        caller: me,
        places: Vec::new(alloc),
    };
    for lines in rounds {
        so_far = go_on(rt, alloc, system, so_far, trees, lines.as_slice())?;
    }
    Ok(so_far)
}

/// What came of a script whose lines have these places in the trace.
fn answered(alloc: Global, closed: Closed, places: &[Placed]) -> Result<Operated, Rule>
    ensures closed { IfOk result (λ o. o.closed ≡ closed) }
    ensures answers { IfOk result (λ o. o.answers.items ≡ answers_at closed.trace.entries.items places.now) }
{
    match answer_lines(alloc, &closed.trace.entries, places) {
        Ok(answers) => Ok(Operated { closed, answers }),
        Err(_) => Err(Rule::M1),
    }
}

/// Runs a script on a board that is named.
fn operate_named<B: Identity + Send + Sync, R: Threads + Wait + Sync>(
    rt: &R,
    alloc: Global,
    core: Core,
    blank: Blank,
    trees: &[Tree],
    rounds: &[List<Line>],
) -> Result<Operated, Rule>
    requires table { blank.table.shared.table_id ≡ B.table 1 }
    requires origin { blank.keeper.me.0.origin ≡ B.origin 1 }
    requires blank { blank.keeper.me.0 ≡ first_view core }
    requires fits { All FitsQueue rounds.now }
    ensures { IfOk result (IsOperation core (trees_in trees.now) rounds.now) }
{
    let (board, keeper) = blank.named::<B>(1);
    let (system, me) = System::open(alloc, core, board, keeper);
    let SoFar { caller, places } = run_rounds(rt, alloc, &system, me, trees, rounds)?;
    match system.close(caller) {
        Ok(core) => answered(alloc, core.close(), &places),
        Err(unclosed) => Err(unclosed.rule),
    }
}

/// Runs a script on a core, and closes it: its rounds one after the other, in each the lines of
/// all actors at the same time. `trees` are the change trees that the script names by number, from
/// 1.
///
/// The rule: M1, memory was missing; O3, the trace became full; X1 doesn't come.
///
/// Promise: a script makes one legal history, and each line has the answer of its own call.
pub fn operate<R: Threads + Wait + Sync>(
    rt: &R,
    alloc: Global,
    core: Core,
    trees: &[Tree],
    script: &Script,
) -> Result<Operated, Rule>
    requires fits { All FitsQueue script.now }
    ensures { IfOk result (IsOperation core (trees_in trees.now) script.now) }
{
    let Ok(blank) = Blank::new(alloc, &core) else {
        return Err(Rule::M1);
    };
    operate_named::<Brand, R>(rt, alloc, core, blank, trees, script.rounds())
}
