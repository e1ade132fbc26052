ghost use Rattle.std.specs.Prelude.{◌≡◌};
ghost use Rattle.iocm_history.specs.Account.{stage_of};
ghost use Rattle.iocm_history.specs.Entry as history;
ghost use Rattle.iocm_history.specs.Stage.{is_held};
ghost use Rattle.iocm_model.specs.Operation.State.{State};
ghost use Rattle.iocm_model.specs.Operation.Step as step;
ghost use Rattle.iocm_core.specs.Running.{Answers, IsInstallationOf, IsRunning};
ghost use Rattle.iocm_core.specs.Told.{GoesOnWith};

use crate::installation::Installation;
use iocm_journal::journals_keep_to_histories;
use iocm_stage::steps_elsewhere_pass_a_stage;
use iocm_types::{Answer, Order, SubId};

impl Installation {
    /// An order of an image on its subchannel; Held where the change in stages alters the
    /// subchannel. Can't run out of memory.
    pub fn io(&mut self, subchannel: &SubId, order: Order) -> Answer
        requires { IsRunning self.old }
        ensures answers { Answers (history.at subchannel.now (step.order order)) result self.old self.new }
        ensures changes { GoesOnWith result self.old.changes.items self.new.changes.items }
    {
        // For the proof alone: the journal is one of the history with the call's entry.
        journals_keep_to_histories();
        if self.holds(subchannel) {
            return Answer::Held;
        }
        // For the proof alone: what is staged stands as it stood.
        steps_elsewhere_pass_a_stage();
        Answer::Io(self.plant.step(*subchannel, order))
    }

    /// The device of a subchannel begins what it was started for; Held where the change in stages
    /// alters the subchannel. Can't run out of memory.
    pub fn device_begin(&mut self, subchannel: &SubId) -> Answer
        requires { IsRunning self.old }
        ensures answers { Answers (history.at subchannel.now step.device_begin) result self.old self.new }
        ensures changes { GoesOnWith result self.old.changes.items self.new.changes.items }
    {
        // For the proof alone: the journal is one of the history with the call's entry.
        journals_keep_to_histories();
        if self.holds(subchannel) {
            return Answer::Held;
        }
        // For the proof alone: what is staged stands as it stood.
        steps_elsewhere_pass_a_stage();
        Answer::Begun(self.plant.device_begin(*subchannel))
    }

    /// The device of a subchannel ends a function; Held where the change in stages alters the
    /// subchannel. Can't run out of memory.
    pub fn device_end(&mut self, subchannel: &SubId) -> Answer
        requires { IsRunning self.old }
        ensures answers { Answers (history.at subchannel.now step.device_end) result self.old self.new }
        ensures changes { GoesOnWith result self.old.changes.items self.new.changes.items }
    {
        // For the proof alone: the journal is one of the history with the call's entry.
        journals_keep_to_histories();
        if self.holds(subchannel) {
            return Answer::Held;
        }
        // For the proof alone: what is staged stands as it stood.
        steps_elsewhere_pass_a_stage();
        Answer::Ended(self.plant.device_end(*subchannel))
    }

    /// Whether a subchannel is held by the change in stages.
    fn holds(&self, subchannel: &SubId) -> bool
        ensures { (opening : State) (h : history.History) → IsInstallationOf opening h self.now
            → result ≡ is_held subchannel.now (stage_of opening h) }
    {
        match &self.stage {
            Some(staged) => staged.holds(*subchannel),
            None => false,
        }
    }
}
