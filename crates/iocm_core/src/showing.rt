ghost use Rattle.std.specs.Prelude.{◌≡◌};
ghost use Rattle.std.specs.FinMap.{get};
ghost use Rattle.iocm_history.specs.Account.{stage_of};
ghost use Rattle.iocm_history.specs.Entry.{History};
ghost use Rattle.iocm_history.specs.Journal.{journal_of};
ghost use Rattle.iocm_history.specs.Machine.{count_advanced, machine_at};
ghost use Rattle.iocm_model.specs.Operation.State.{State, seen_in};
ghost use Rattle.iocm_core.specs.Running.{IsInstallationOf};

use crate::Core;
use crate::installation::Installation;
use iocm_types::{Live, SubId, View};

// What a machine shows between calls. None of it is recorded, and none takes memory.
impl Core {
    /// What is seen at a subchannel now, if it is there. A change in stages is seen as far as it
    /// was advanced: after k Advances the machine has its first k edits.
    pub fn view(&self, subchannel: SubId) -> Option<View>
        ensures { result ≡ seen_in (machine_at self.now.opening self.now.history) subchannel }
    {
        self.installation.plant.view(subchannel)
    }

    /// What a subchannel remembers now, if it is there.
    pub fn live(&self, subchannel: SubId) -> Option<Live>
        ensures { result ≡ get (machine_at self.now.opening self.now.history).lives subchannel }
    {
        self.installation.plant.live(subchannel)
    }

    /// How many changes were accepted, at once or in stages. The latest has this number.
    pub fn changes(&self) -> u64
        ensures { result ≡ (journal_of self.now.history).count }
    {
        self.installation.journal.count()
    }

    /// How many edits were advanced of the change in stages, if one was begun.
    pub fn advanced(&self) -> Option<u64>
        ensures { result ≡ count_advanced (stage_of self.now.opening self.now.history) }
    {
        self.installation.advanced()
    }
}

impl Installation {
    /// How many edits were advanced of the change in stages, if one was begun.
    fn advanced(&self) -> Option<u64>
        ensures { (opening : State) (h : History) → IsInstallationOf opening h self.now
            → result ≡ count_advanced (stage_of opening h) }
    {
        match &self.stage {
            Some(staged) => Some(staged.advanced()),
            None => None,
        }
    }
}
