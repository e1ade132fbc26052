ghost use Rattle.std.specs.Prelude.{◌≡◌, length, Option, MatchOption};
ghost use Rattle.iocm_history.specs.Account.{state_at};
ghost use Rattle.iocm_history.specs.InUse.{IsInUse};
ghost use Rattle.iocm_history.specs.Journal.{journal_of};
ghost use Rattle.iocm_history.specs.Legal.{IsLegal};
ghost use Rattle.iocm_history.specs.Stage.{Stage};
ghost use Rattle.iocm_model.specs.Operation.State.{State, opening_state};
ghost use Rattle.iocm_stage.specs.Staged.{IsStaged};
ghost use Rattle.iocm_core.specs.Running.{IsStagedAs};
ghost use Rattle.iocm_core.specs.Told.{history_in, IsTold};

use crate::installation::Installation;
use crate::{Core, Trace};
use iocm_plant::Plant;
use iocm_stage::Staged;

/// A machine that is closed, with its trace.
#[derive(Drop)]
pub struct Closed {
    /// The machine, in the state to which its history leads.
    pub plant: Plant,
    /// What was asked of it, and answered.
    pub trace: Trace,
}

impl Core {
    /// Closes the machine, and gives it with its trace. What was advanced of a change in stages is
    /// taken back. Can't run out of memory.
    ///
    /// Promise: the machine that is left is the one to which the recorded calls lead.
    pub fn close(self) -> Closed
        ensures state { result.plant.state ≡ state_at self.opening self.history }
        ensures opening { opening_state result.trace.opening.records ≡ self.opening }
        ensures history { history_in result.trace.changes.items result.trace.entries.items ≡ self.history }
        ensures entries { result.trace.entries.items ≡ self.entries }
        ensures changes { length result.trace.changes.items ≡ (journal_of self.history).count }
    {
        let Core {
            installation,
            opening,
            entries,
            room: _room,
        } = self;
        let Installation {
            plant,
            journal: _journal,
            stage,
            changes,
        } = installation;
        Closed {
            plant: settled(plant, stage),
            trace: Trace {
                opening,
                entries,
                changes: changes.into_effects(),
            },
        }
    }

    /// Its history is legal, from an opening state in use: each answer is the one that the
    /// definition of histories gives, or M1 where nothing is staged and memory may be wanted. It
    /// reads nothing, and is there for callers' proofs.
    ///
    /// Promise: each answer is the one that the history determines, or lack of memory.
    pub fn is_legal(&self)
        ensures used { IsInUse self.now.opening }
        ensures legal { IsLegal self.now.opening self.now.history }
        ensures told { IsTold self.now.history self.now.entries }
        ensures as_many { length self.now.history ≡ length self.now.entries }
    {
        let _ = &self.room;
    }
}

/// The plant, where what was advanced of a change in stages is taken back.
fn settled(plant: Plant, stage: Option<Staged>) -> Plant
    requires { MatchOption stage (Unit {0}) (λ g. IsStaged g plant) }
    ensures state { (t : Option Stage) (s : State) → IsStagedAs t stage s plant → result.state ≡ s }
{
    let mut plant = plant;
    match stage {
        Some(staged) => {
            staged.abort(&mut plant);
            plant
        }
        None => plant,
    }
}
