ghost use Rattle.iocm_history.specs.Entry as history;
ghost use Rattle.iocm_core.specs.Running.{Answers, IsRunning};
ghost use Rattle.iocm_core.specs.Told.{GoesOnWith};

use crate::installation::Installation;
use crate::refusals::STAGED;
use iocm_journal::journals_keep_to_histories;
use iocm_types::{Answer, Counts};
use std::alloc::Global;

impl Installation {
    /// Undoes a change: Undone, with its number; or why it is refused: O1, a change is staged; or
    /// as `Journal::undo` is.
    pub fn undo(&mut self, alloc: Global, number: u64) -> Answer
        requires { IsRunning self.old }
        ensures answers { Answers (history.undo number) result self.old self.new }
        ensures changes { GoesOnWith result self.old.changes.items self.new.changes.items }
    {
        // For the proof alone: the journal is one of the history with the call's entry.
        journals_keep_to_histories();
        if self.stage.is_some() {
            return Answer::Refused(STAGED);
        }
        match self
            .journal
            .undo(alloc, &mut self.plant, &self.changes, number)
        {
            Ok(()) => Answer::Undone(number),
            Err(why) => Answer::Refused(why),
        }
    }

    /// Does a change again that was undone: Redone, with its number; or why it is refused: O1, a
    /// change is staged; or as `Journal::redo` is.
    pub fn redo(&mut self, alloc: Global, number: u64) -> Answer
        requires { IsRunning self.old }
        ensures answers { Answers (history.redo number) result self.old self.new }
        ensures changes { GoesOnWith result self.old.changes.items self.new.changes.items }
    {
        // For the proof alone: the journal is one of the history with the call's entry.
        journals_keep_to_histories();
        if self.stage.is_some() {
            return Answer::Refused(STAGED);
        }
        match self
            .journal
            .redo(alloc, &mut self.plant, &self.changes, number)
        {
            Ok(()) => Answer::Redone(number),
            Err(why) => Answer::Refused(why),
        }
    }

    /// What the machine counts; O1 where a change is staged. Can't run out of memory.
    pub fn show(&mut self) -> Answer
        requires { IsRunning self.old }
        ensures answers { Answers history.show result self.old self.new }
        ensures changes { GoesOnWith result self.old.changes.items self.new.changes.items }
    {
        // For the proof alone: the journal is one of the history with the call's entry.
        journals_keep_to_histories();
        if self.stage.is_some() {
            return Answer::Refused(STAGED);
        }
        Answer::Shown(Counts {
            records: self.plant.config().len() as u64,
            subchannels: self.plant.subchannels() as u64,
            standing: self.journal.standing(),
            undone: self.journal.undone_count(),
        })
    }
}
