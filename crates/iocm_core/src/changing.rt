ghost use Rattle.std.specs.Prelude.{◌≡◌, None, IfOk, IfErr, OnErr};
ghost use Rattle.iocm_history.specs.Entry as history;
ghost use Rattle.iocm_model.specs.Change.Meaning.{meaning};
ghost use Rattle.iocm_plant.specs.Refusing.{IsDue};
ghost use Rattle.iocm_activate.specs.Done.{refusal_in};
ghost use Rattle.iocm_core.specs.Accepting.{IsActivated, IsBegun, KeepsTheRest};
ghost use Rattle.iocm_tree.specs.Trees.{plain};
ghost use Rattle.iocm_core.specs.Running.{Answers, IsRunning};
ghost use Rattle.iocm_core.specs.Told.{GoesOnWith};

use crate::installation::Installation;
use crate::refusals::{NOTHING_STAGED, STAGED};
use iocm_activate::activate;
use iocm_journal::journals_keep_to_histories;
use iocm_stage::begin;
use iocm_tree::Tree;
use iocm_types::{Answer, Refused};
use std::alloc::Global;

impl Installation {
    /// Activates a change tree: Changed, with its number; or why it is refused: O1, a change is
    /// staged; or as `activate` of `iocm_activate` is. A tree that is over a limit (C1, C2) is
    /// refused without memory.
    pub fn activate(&mut self, alloc: Global, tree: &Tree) -> Answer
        requires { IsRunning self.old }
        ensures answers { Answers (history.activate (plain tree.now)) result self.old self.new }
        ensures changes { GoesOnWith result self.old.changes.items self.new.changes.items }
    {
        // For the proof alone: the journal is one of the history with the call's entry.
        journals_keep_to_histories();
        if self.stage.is_some() {
            return Answer::Refused(STAGED);
        }
        if let Some(why) = tree.refusal() {
            return Answer::Refused(why);
        }
        match self.try_to_activate(alloc, tree) {
            Ok(number) => Answer::Changed(number),
            Err(why) => Answer::Refused(why),
        }
    }

    /// Begins a change in stages: Staged, with the number of its edits; or why it is refused: O1, a
    /// change is staged; or as its activation is.
    pub fn begin(&mut self, alloc: Global, tree: &Tree) -> Answer
        requires { IsRunning self.old }
        ensures answers { Answers (history.begin (plain tree.now)) result self.old self.new }
        ensures changes { GoesOnWith result self.old.changes.items self.new.changes.items }
    {
        // For the proof alone: the journal is one of the history with the call's entry.
        journals_keep_to_histories();
        if self.stage.is_some() {
            return Answer::Refused(STAGED);
        }
        if let Some(why) = tree.refusal() {
            return Answer::Refused(why);
        }
        match self.try_to_begin(alloc, tree) {
            Ok(edits) => Answer::Staged(edits),
            Err(why) => Answer::Refused(why),
        }
    }

    /// Does the next edit of the change in stages: Left, with the number of those that are left
    /// then; O2 where nothing is staged. Can't run out of memory.
    pub fn advance(&mut self) -> Answer
        requires { IsRunning self.old }
        ensures answers { Answers history.advance result self.old self.new }
        ensures changes { GoesOnWith result self.old.changes.items self.new.changes.items }
    {
        // For the proof alone: the journal is one of the history with the call's entry.
        journals_keep_to_histories();
        match &mut self.stage {
            Some(staged) => Answer::Left(staged.advance(&mut self.plant)),
            None => Answer::Refused(NOTHING_STAGED),
        }
    }

    /// Does the edits that are left of the change in stages, which is accepted: Changed, with its
    /// number; O2 where nothing is staged. Can't run out of memory.
    pub fn commit(&mut self) -> Answer
        requires { IsRunning self.old }
        ensures answers { Answers history.commit result self.old self.new }
        ensures changes { GoesOnWith result self.old.changes.items self.new.changes.items }
    {
        // For the proof alone: the journal is one of the history with the call's entry.
        journals_keep_to_histories();
        match self.stage.take() {
            Some(staged) => {
                let done = staged.commit(&mut self.plant);
                Answer::Changed(self.accept(done))
            }
            None => Answer::Refused(NOTHING_STAGED),
        }
    }

    /// Gives the change in stages up, and takes back what was done of it: Aborted; O2 where nothing
    /// is staged. Can't run out of memory.
    pub fn abort(&mut self) -> Answer
        requires { IsRunning self.old }
        ensures answers { Answers history.abort result self.old self.new }
        ensures changes { GoesOnWith result self.old.changes.items self.new.changes.items }
    {
        // For the proof alone: the journal is one of the history with the call's entry.
        journals_keep_to_histories();
        match self.stage.take() {
            Some(staged) => {
                staged.abort(&mut self.plant);
                Answer::Aborted
            }
            None => Answer::Refused(NOTHING_STAGED),
        }
    }

    /// Activates a change tree where nothing is staged, and gives the change's number.
    fn try_to_activate(&mut self, alloc: Global, tree: &Tree) -> Result<u64, Refused>
        requires running { IsRunning self.old }
        requires idle { self.old.stage ≡ None }
        ensures done { IfOk result (λ n. IsActivated (plain tree.now) self.old n self.new) }
        ensures refused { IfErr result (IsDue (refusal_in (meaning (plain tree.now) self.old.plant.state))) }
        ensures same { OnErr result (self.new.plant.state ≡ self.old.plant.state) }
        ensures stage { OnErr result (self.new.stage ≡ self.old.stage) }
        ensures rest { OnErr result (KeepsTheRest self.old self.new) }
    {
        // For the proof alone: the journal with room is one of the same history.
        journals_keep_to_histories();
        if self.make_room().is_err() {
            return Err(Refused::NO_MEMORY);
        }
        match activate(alloc, &mut self.plant, tree) {
            Ok(done) => Ok(self.accept(done)),
            Err(why) => Err(why),
        }
    }

    /// Begins a change where nothing is staged, and gives the number of its edits.
    fn try_to_begin(&mut self, alloc: Global, tree: &Tree) -> Result<u64, Refused>
        requires running { IsRunning self.old }
        requires idle { self.old.stage ≡ None }
        ensures done { IfOk result (λ edits. IsBegun (plain tree.now) self.old edits self.new) }
        ensures refused { IfErr result (IsDue (refusal_in (meaning (plain tree.now) self.old.plant.state))) }
        ensures same { OnErr result (self.new.plant.state ≡ self.old.plant.state) }
        ensures stage { OnErr result (self.new.stage ≡ self.old.stage) }
        ensures rest { OnErr result (KeepsTheRest self.old self.new) }
    {
        if self.make_room().is_err() {
            return Err(Refused::NO_MEMORY);
        }
        match begin(alloc, &mut self.plant, tree) {
            Ok(staged) => {
                let edits = staged.left();
                self.stage = Some(staged);
                Ok(edits)
            }
            Err(why) => Err(why),
        }
    }
}
