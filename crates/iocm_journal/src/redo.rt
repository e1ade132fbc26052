ghost use Rattle.std.specs.Prelude.{◌≡◌, ◌<◌, ◌+◌, ◌++◌, ◌∷◌, [], length, Some, slice_set};
ghost use Rattle.std.specs.Prelude.{IfOk, IfErr, IsFalse, IsTrue, OnOk, OnErr, MatchOption};
ghost use Rattle.std.specs.Result.{result_err};
ghost use Rattle.std.specs.List.{slice_get};
ghost use Rattle.iocm_model.specs.Change.Meaning.{meaning};
ghost use Rattle.iocm_model.specs.Laws.Trees.{KeepsTheRules};
ghost use Rattle.iocm_model.specs.Operation.State.{State};
ghost use Rattle.iocm_history.specs.Entry.{History};
ghost use Rattle.iocm_plant.specs.Operating.{KeepsRoom};
ghost use Rattle.iocm_plant.specs.Refusing.{IsDue};
ghost use Rattle.iocm_activate.specs.Done.{refusal_in};
ghost use Rattle.iocm_journal.specs.Answering.{GoOnBy, redo_made};
ghost use Rattle.iocm_journal.specs.Deciding.{IsRedoDecided};
ghost use Rattle.iocm_journal.specs.declared.kept.Kept.{Kept};
ghost use Rattle.iocm_journal.specs.Moving.{KeepsTheSame, WasRedone, again};
ghost use Rattle.iocm_journal.specs.Now.{BelongTogether, IsNow};
ghost use Rattle.iocm_journal.specs.Standing.{is_last, redo_at_end, stands_at};

use crate::Journal;
use crate::kept::Undone;
use crate::quiet::refused_for_not_quiet;
use crate::undos::forget_last_of;
use iocm_activate::{Effects, carry_out};
use iocm_plant::Plant;
use iocm_types::{Refused, Rule};
use std::alloc::Global;

impl Journal {
    /// Does a change again that is undone: the cells that it wrote get back what they had before
    /// its undo. `changes`, and what is asked of the machine, are as for `undo`.
    ///
    /// J1: no such change is undone. J3: another one of those that are undone now was undone last,
    /// or the change was undone before a new one was accepted. B1, with the least: a subchannel
    /// that it altered is busy or status pending. M1, only where it would be redone: memory is
    /// missing. A refused redo leaves journal and state as they were.
    ///
    /// Promise: a redo leaves what the history says that it leaves, or nothing is changed.
    pub fn redo(
        &mut self,
        alloc: Global,
        plant: &mut Plant,
        changes: &Effects,
        number: u64,
    ) -> Result<(), Refused>
        requires { BelongTogether self.old changes.now.items plant.old }
        ensures next { GoOnBy (redo_made number result) changes.now.items self.old plant.old self.new plant.new }
        ensures same { OnErr result (KeepsTheSame self.old self.new) }
        ensures room { KeepsRoom plant.old.room plant.new.room }
    {
        match self.redo_place(plant, changes, number) {
            Ok(place) => self.do_again(alloc, plant, place),
            Err(why) => Err(why),
        }
    }

    /// The place of a change that may be done again, counted from 0; or J1, J3 or B1.
    fn redo_place(&self, plant: &Plant, changes: &Effects, number: u64) -> Result<usize, Refused>
        requires now { BelongTogether self.now changes.now.items plant.now }
        ensures decided { (opening : State) (h : History) → IsNow opening h self.now changes.now.items plant.now
            → IsRedoDecided opening h number (result_err result) }
        ensures number { IfOk result (λ place. number ≡ place + 1) }
        ensures last { OnOk result (IsTrue (is_last self.now.undone number)) }
        ensures within { IfOk result (λ place. place < length self.now.changes) }
        ensures undone { IfOk result (λ place. IsFalse (stands_at self.now.changes place)) }
    {
        let Some(place) = self.place(number) else {
            return Err(Refused::of(Rule::J1));
        };
        if self.kept_at(place).stands {
            return Err(Refused::of(Rule::J1));
        }
        if !self.is_last_undone(number) {
            return Err(Refused::of(Rule::J3));
        }
        match refused_for_not_quiet(plant, changes.get(place)) {
            Some(why) => Err(why),
            None => Ok(place),
        }
    }

    /// Whether the change of a number is the last one undone.
    fn is_last_undone(&self, number: u64) -> bool
        ensures { result ≡ is_last self.now.undone number }
    {
        match self.undone.last() {
            Some(undone) => undone.number == number,
            None => false,
        }
    }

    /// Does the last change undone again, by the tree that is kept for that; it stands then. It is
    /// at this place among the changes.
    ///
    /// The refusal that the tree means, or M1: memory ran out.
    fn do_again(&mut self, alloc: Global, plant: &mut Plant, place: usize) -> Result<(), Refused>
        requires rules { KeepsTheRules plant.old.state }
        requires place { place < length self.old.changes }
        requires undone { IsFalse (stands_at self.old.changes place) }
        requires last { IsTrue (is_last self.old.undone (place + 1)) }
        ensures done { OnOk result (WasRedone self.old place plant.old.state plant.new.state self.new) }
        ensures refused { IfErr result (IsDue (refusal_in
            (meaning (redo_at_end self.old.undone) plant.old.state))) }
        ensures same { OnErr result (plant.new.state ≡ plant.old.state) }
        ensures journal { OnErr result (KeepsTheSame self.old self.new) }
        ensures room { KeepsRoom plant.old.room plant.new.room }
    {
        let Some(last) = self.undone.last() else {
            return Err(Refused::NO_MEMORY);
        };
        match carry_out(alloc, plant, &last.redo) {
            Ok(_inverse) => {
                let _last = self.note_redone(place);
                Ok(())
            }
            Err(why) => Err(why),
        }
    }

    /// Notes that the last change undone, at this place, stands again; its undo is forgotten. It
    /// gives what was kept of it while it was undone. Can't run out of memory.
    fn note_redone(&mut self, place: usize) -> Option<Undone>
        requires place { place < length self.old.changes }
        requires undone { IsFalse (stands_at self.old.changes place) }
        ensures changes { (k : Kept) → slice_get self.old.changes place ≡ Some k
            → self.new.changes ≡ slice_set self.old.changes place (again k) }
        ensures standing { self.new.standing ≡ self.old.standing + 1 }
        ensures undone { MatchOption result (self.old.undone ≡ [])
            (λ last. self.old.undone ≡ self.new.undone ++ last ∷ []) }
    {
        let kept = &mut self.changes[place];
        kept.stands = true;
        self.standing += 1;
        forget_last_of(&mut self.undos, place);
        self.undone.pop()
    }
}
