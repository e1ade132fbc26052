ghost use Rattle.std.specs.Prelude.{◌≡◌, ◌-◌, ◌^◌, min, ℕ, All, IfOk, map};
ghost use Rattle.iocm_console.specs.Refusal.{or_refused, Decides};
ghost use Rattle.iocm_model.specs.Laws.Trees.{KeepsTheRules};
ghost use Rattle.iocm_model.specs.Machine.Configuration as configuration;
ghost use Rattle.iocm_model.specs.Operation.State.{opening_state};
ghost use Rattle.iocm_script.specs.Scripts.{script_in, FitsQueue};
ghost use Rattle.iocm_tree.specs.Trees.{tree_of};
ghost use Rattle.iocm_answer.specs.Change.{trees_in};
ghost use Rattle.iocm_answer.specs.declared.manner.Manner.{Manner};
ghost use Rattle.iocm_answer.specs.Commands.Run as meaning;
ghost use Rattle.iocm_answer.specs.Commands.Run.{new_core, ShowsOne};

use crate::change::read_change;
use crate::{Answer, Ran};
use iocm_console::{Refusal, Table};
use iocm_core::{Closed, Core};
use iocm_operation::{Operated, operate};
use iocm_plant::Plant;
use iocm_script::{Script, read_script};
use iocm_tree::Tree;
use std::alloc::{AllocError, Global};
use std::sync::Wait;
use std::thread::Threads;

/// `run`: what comes of a script on a machine that was just opened: the answers, how many calls were
/// made, and the table of the machine that is left; or the first fault of the change decks, in their
/// order, or that of the script. Each change tree is read in a heap of its own, as `read_change`
/// says.
///
/// M1: memory ran out. The trace has room for as many calls as the script makes.
///
/// Promise: `run` prints the answers of one legal history and its table, or one refusal.
pub fn run<'f, T: Threads + Wait + Sync>(
    rt: &T,
    alloc: Global,
    heap: Option<u32>,
    plant: Plant,
    script: &[u8],
    changes: &[Vec<u8>],
) -> Result<Answer<'f>, Refusal>
    requires fresh { plant.state ≡ opening_state plant.state.config }
    requires rules { KeepsTheRules plant.state }
    ensures { (m : Manner) → ShowsOne m result (meaning.IsOfMachine m plant.state.config
        (map (λ v. v.items) changes.now) script.now) }
{
    let trees = read_changes(alloc, heap, changes)?;
    let script = read_script(alloc, script, changes.len() as u64)?;
    let core = Core::open(alloc, plant, calls_in(&script))?;
    play(rt, alloc, core, &trees, &script)
}

/// The change trees of change decks, or the first fault of the first that has one.
fn read_changes(alloc: Global, heap: Option<u32>, changes: &[Vec<u8>]) -> Result<Vec<Tree>, Refusal>
    ensures { Decides (λ v. map tree_of v.items) result
        (or_refused (trees_in (map (λ v. v.items) changes.now))) }
{
    let mut trees = Vec::new(alloc);
    for change in changes {
        trees.push(read_change(alloc, heap, change)?)?;
    }
    Ok(trees)
}

/// How many calls the lines of a script make.
fn calls_in(script: &Script) -> usize
    ensures { result ≡ min (meaning.calls_in script.now) (2 ^ 64 - 1) }
{
    let mut count: usize = 0;
    for round in script.rounds() {
        count = count.saturating_add(round.as_slice().len());
    }
    count
}

/// Runs a script on a core. Only lack of memory stops it: the trace has room for all calls, and nobody
/// else has the machine.
fn play<'f, T: Threads + Wait + Sync>(
    rt: &T,
    alloc: Global,
    core: Core,
    trees: &[Tree],
    script: &Script,
) -> Result<Answer<'f>, Refusal>
    requires fits { All FitsQueue script.now }
    ensures { (m : Manner) (config : configuration.Configuration) (room : ℕ) → core ≡ new_core config room
        → ShowsOne m result (meaning.IsRun m config room (map tree_of trees.now) script.now) }
{
    match operate(rt, alloc, core, trees, script) {
        Ok(operated) => Ok(Answer::Ran(ran_of(alloc, operated)?)),
        Err(_) => Err(Refusal::NO_MEMORY),
    }
}

/// What came of a script, ready to be printed.
fn ran_of<'f>(alloc: Global, operated: Operated) -> Result<Ran<'f>, AllocError>
    ensures { (m : Manner) → IfOk result (λ ran. meaning.shown_ran m ran ≡ meaning.ran m operated) }
{
    let Operated { closed, answers } = operated;
    let Closed { plant, trace } = closed;
    let calls = trace.entries.len();
    let table = Table::of_all(alloc, plant)?;
    Ok(Ran {
        answers,
        calls,
        table,
    })
}
