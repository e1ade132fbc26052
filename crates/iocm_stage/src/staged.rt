ghost use Rattle.std.specs.Prelude.{◌≡◌, Some};
ghost use Rattle.iocm_history.specs.Machine.{count_advanced};
ghost use Rattle.iocm_history.specs.Stage.{Stage, is_held, left_of, once_more};
ghost use Rattle.iocm_model.specs.Change.Runs.{state_after_all};
ghost use Rattle.iocm_model.specs.Laws.Trees.{KeepsTheRules};
ghost use Rattle.iocm_model.specs.Operation.State.{State};
ghost use Rattle.iocm_plant.specs.Operating.{Operating};
ghost use Rattle.iocm_stage.specs.Staged.{IsStageOf, IsStaged, Tells};

use crate::performing::perform_all;
use iocm_activate::Done;
use iocm_plant::Plant;
use iocm_tree::Edit;
use iocm_types::SubId;

/// A change that was begun on a machine. Until it is committed or aborted there, no other change
/// may be made on that machine, and no step on a subchannel that the change `holds`.
#[derive(Drop)]
pub struct Staged {
    /// What is told of the change.
    pub(crate) done: Done,
    /// The edits that are left, the next one last.
    pub(crate) forward: Vec<Edit>,
    /// The edits that take back those that were advanced, the latest last.
    pub(crate) back: Vec<Edit>,
}

impl Staged {
    /// Whether the change holds a subchannel: exactly those that it alters.
    pub fn holds(&self, subchannel: SubId) -> bool
        ensures { (t : Stage) (s : State) (p : Operating) → IsStageOf self.now t s p
            → result ≡ is_held subchannel (Some t) }
    {
        self.done.effect.lives.get(&subchannel).is_some()
    }

    /// How many edits are left.
    pub fn left(&self) -> u64
        ensures { (t : Stage) (s : State) (p : Operating) → IsStageOf self.now t s p → result ≡ left_of t }
    {
        self.forward.len() as u64
    }

    /// How many edits were advanced.
    pub fn advanced(&self) -> u64
        ensures { (t : Stage) (s : State) (p : Operating) → IsStageOf self.now t s p
            → Some result ≡ count_advanced (Some t) }
    {
        self.back.len() as u64
    }

    /// Performs the next edit. The answer is how many are left then; where none was left, nothing
    /// happens, and it is 0. Can't run out of memory.
    pub fn advance(&mut self, plant: &mut Plant) -> u64
        requires { IsStaged self.old plant.old }
        ensures stage { (t : Stage) (s : State) → IsStageOf self.old t s plant.old
            → IsStageOf self.new (once_more t) s plant.new }
        ensures left { (t : Stage) (s : State) → IsStageOf self.old t s plant.old → result ≡ left_of (once_more t) }
        ensures room { plant.new.room ≡ plant.old.room }
    {
        let Some(edit) = self.forward.pop() else {
            return 0;
        };
        let back = plant.unapply(edit);
        self.back.push_reserved(back);
        self.left()
    }

    /// Performs all edits that are left. It tells of the whole change. Can't run out of memory.
    ///
    /// Promise: a commit needs no memory and can't be refused.
    pub fn commit(self, plant: &mut Plant) -> Done
        requires { IsStaged self plant.old }
        ensures state { (t : Stage) (s : State) → IsStageOf self t s plant.old
            → plant.new.state ≡ state_after_all t.change.edits s }
        ensures tells { (t : Stage) (s : State) → IsStageOf self t s plant.old → Tells result t.change }
        ensures kept { KeepsTheRules plant.new.state }
        ensures room { plant.new.room ≡ plant.old.room }
    {
        let Staged {
            done,
            forward,
            back: _back,
        } = self;
        perform_all(plant, forward);
        done
    }

    /// Takes back the edits that were advanced. Can't run out of memory.
    ///
    /// Promise: an abort needs no memory and can't be refused.
    pub fn abort(self, plant: &mut Plant)
        requires { IsStaged self plant.old }
        ensures state { (t : Stage) (s : State) → IsStageOf self t s plant.old → plant.new.state ≡ s }
        ensures kept { KeepsTheRules plant.new.state }
        ensures room { plant.new.room ≡ plant.old.room }
    {
        let Staged {
            done: _done,
            forward: _forward,
            back,
        } = self;
        perform_all(plant, back);
    }

    /// Takes back the edits that were advanced, and keeps the change staged. Can't run out of
    /// memory.
    pub(crate) fn go_back(&mut self, plant: &mut Plant)
        requires { IsStaged self.old plant.old }
        ensures stage { (t : Stage) (s : State) → IsStageOf self.old t s plant.old
            → IsStageOf self.new (record { change = t.change; advances = 0 }) s plant.new }
        ensures room { plant.new.room ≡ plant.old.room }
    {
        while let Some(edit) = self.back.pop() {
            let again = plant.unapply(edit);
            self.forward.push_reserved(again);
        }
    }
}
