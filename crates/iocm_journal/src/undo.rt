ghost use Rattle.std.specs.Prelude.{◌≡◌, ◌<◌, ◌+◌, ℕ, length, MatchOption};
ghost use Rattle.std.specs.Prelude.{IfOk, IfErr, IfSome, IsFalse, IsTrue, OnOk, OnErr, Ok, Some, true, false};
ghost use Rattle.std.specs.Prelude.{slice_get};
ghost use Rattle.iocm_model.specs.Change.Meaning.{meaning};
ghost use Rattle.iocm_model.specs.Laws.Trees.{KeepsTheRules};
ghost use Rattle.iocm_model.specs.Operation.State.{State};
ghost use Rattle.iocm_history.specs.Entry.{History};
ghost use Rattle.iocm_plant.specs.Operating.{KeepsRoom};
ghost use Rattle.iocm_plant.specs.Refusing.{IsDue};
ghost use Rattle.iocm_activate.specs.Done.{refusal_in};
ghost use Rattle.iocm_journal.specs.Answering.{GoOnBy, undo_made};
ghost use Rattle.iocm_journal.specs.Deciding.{IsUndoDecided};
ghost use Rattle.iocm_journal.specs.Moving.{KeepsTheSame, WasUndone};
ghost use Rattle.iocm_journal.specs.Now.{BelongTogether, IsNow};
ghost use Rattle.iocm_journal.specs.Standing.{inverse_at, stands_at, IsGreatestOn, IsWhetherItFits};
ghost use Rattle.iocm_journal.specs.declared.kept.Kept.{Kept};
ghost use Rattle.iocm_journal.specs.declared.kept.Undoing.TheVariants.{IfItFits};

use crate::Journal;
use crate::kept::{Undoing, Undone};
use crate::quiet::refused_for_not_quiet;
use crate::standing_on::{greatest_on, is_stood_on_if_unfit};
use crate::undos::Undo;
use iocm_activate::Effects;
use iocm_plant::Plant;
use iocm_types::{At, Refused, Rule};
use std::alloc::{AllocError, Global};

impl Journal {
    /// Undoes a change on its machine: the cells that it wrote get back what they had before it.
    /// `changes` is what each accepted change wrote, in the order of their numbers; nothing may be
    /// staged, and no change but those of the journal may have been made on the machine since it
    /// was opened.
    ///
    /// J1: no such change stands. J2, with the greatest: a change stands on it. B1, with the least:
    /// a subchannel that it altered is busy or status pending. M1, which may come in place of J2,
    /// B1 and the undo: memory is missing. A refused undo leaves journal and state as they were.
    ///
    /// Promise: an undo leaves what the history says that it leaves, or nothing is changed.
    pub fn undo(
        &mut self,
        alloc: Global,
        plant: &mut Plant,
        changes: &Effects,
        number: u64,
    ) -> Result<(), Refused>
        requires { BelongTogether self.old changes.now.items plant.old }
        ensures next { GoOnBy (undo_made number result) changes.now.items self.old plant.old self.new plant.new }
        ensures same { OnErr result (KeepsTheSame self.old self.new) }
        ensures room { KeepsRoom plant.old.room plant.new.room }
    {
        let Some(place) = self.standing_place(number) else {
            return Err(Refused::of(Rule::J1));
        };
        if self.undo_if_it_fits(alloc, plant, changes, place) {
            return Ok(());
        }
        self.undo_if_nothing_stands_on_it(alloc, plant, changes, place)
    }

    /// Tries to undo the standing change at a place by one walk through its inverse tree. It is for a
    /// change that one would stand on if it didn't fit. No later one that stands may have a cell in
    /// common with it, and all that it altered has to be quiet. Tells whether it did so. Else the
    /// state and the journal are as they were, and nothing is said of the undo.
    fn undo_if_it_fits(
        &mut self,
        alloc: Global,
        plant: &mut Plant,
        changes: &Effects,
        place: usize,
    ) -> bool
        requires now { BelongTogether self.old changes.now.items plant.old }
        requires place { place < length self.old.changes }
        requires stands { IsTrue (stands_at self.old.changes place) }
        ensures next { result ≡ true
            → GoOnBy (undo_made (place + 1) (Ok tt)) changes.now.items self.old plant.old self.new plant.new }
        ensures state { result ≡ false → plant.new.state ≡ plant.old.state }
        ensures same { result ≡ false → KeepsTheSame self.old self.new }
        ensures room { KeepsRoom plant.old.room plant.new.room }
    {
        let kept = self.changes.as_slice();
        let undos = self.undos.as_slice();
        if !is_stood_on_if_unfit(kept, undos, place) {
            return false;
        }
        if greatest_on(kept, changes, place, true).is_some() {
            return false;
        }
        if refused_for_not_quiet(plant, changes.get(place)).is_some() {
            return false;
        }
        match self.take_back(alloc, plant, place, Undoing::IfItFits) {
            Ok(()) => true,
            Err(_why) => false,
        }
    }

    /// Undoes the standing change at a place, unless one stands on it or a subchannel that it altered
    /// isn't quiet.
    fn undo_if_nothing_stands_on_it(
        &mut self,
        alloc: Global,
        plant: &mut Plant,
        changes: &Effects,
        place: usize,
    ) -> Result<(), Refused>
        requires now { BelongTogether self.old changes.now.items plant.old }
        requires place { place < length self.old.changes }
        requires stands { IsTrue (stands_at self.old.changes place) }
        ensures next { GoOnBy (undo_made (place + 1) result) changes.now.items self.old plant.old self.new plant.new }
        ensures same { OnErr result (KeepsTheSame self.old self.new) }
        ensures room { KeepsRoom plant.old.room plant.new.room }
    {
        match self.undo_obstacle(alloc, plant, changes, place) {
            Ok(None) => self.take_back(alloc, plant, place, Undoing::Anyway),
            Ok(Some(why)) => Err(why),
            Err(_error) => Err(Refused::NO_MEMORY),
        }
    }

    /// The place of a change that stands, counted from 0.
    fn standing_place(&self, number: u64) -> Option<usize>
        ensures { MatchOption result ((at : ℕ) → number ≡ at + 1 → IsFalse (stands_at self.now.changes at))
            (λ at. (number ≡ at + 1) × IsTrue (stands_at self.now.changes at)) }
    {
        let place = self.place(number)?;
        if !self.kept_at(place).stands {
            return None;
        }
        Some(place)
    }

    /// J2 or B1, if it is in the way of the undo of the standing change at a place.
    ///
    /// `AllocError` (M1): memory ran out.
    fn undo_obstacle(
        &self,
        alloc: Global,
        plant: &mut Plant,
        changes: &Effects,
        place: usize,
    ) -> Result<Option<Refused>, AllocError>
        requires now { BelongTogether self.now changes.now.items plant.old }
        requires place { place < length self.now.changes }
        requires stands { IsTrue (stands_at self.now.changes place) }
        ensures decided { IfOk result (λ why. (opening : State) (h : History)
            → IsNow opening h self.now changes.now.items plant.old → IsUndoDecided opening h (place + 1) why) }
        ensures same { plant.new.state ≡ plant.old.state }
        ensures room { KeepsRoom plant.old.room plant.new.room }
    {
        let on = self.stood_on_by(alloc, plant, changes, place)?;
        if let Some(other) = on {
            // For the proof alone: so many places have numbers that fit.
            let _count = self.changes.len();
            return Ok(Some(Refused::about(Rule::J2, At::Change(other as u64 + 1))));
        }
        Ok(refused_for_not_quiet(plant, changes.get(place)))
    }

    /// The place of the greatest change that stands on the one at a place, if one does. Whether
    /// that one fits is tried only where a change stood on it if it didn't: what stands on a change
    /// that fits would stand on it then, too. The time is that of the changes accepted and the undos
    /// made since; only where the change doesn't fit all are read.
    ///
    /// `AllocError` (M1): memory ran out.
    fn stood_on_by(
        &self,
        alloc: Global,
        plant: &mut Plant,
        changes: &Effects,
        place: usize,
    ) -> Result<Option<usize>, AllocError>
        requires rules { KeepsTheRules plant.old.state }
        requires place { place < length self.now.changes }
        requires changes { length changes.now.items ≡ length self.now.changes }
        ensures greatest { IfOk result (IsGreatestOn self.now.changes changes.now.items place plant.old.state) }
        ensures within { IfOk result (λ on. IfSome on (λ at. at < length self.now.changes)) }
        ensures same { plant.new.state ≡ plant.old.state }
        ensures room { KeepsRoom plant.old.room plant.new.room }
    {
        let kept = self.changes.as_slice();
        if !is_stood_on_if_unfit(kept, self.undos.as_slice(), place) {
            return Ok(None);
        }
        let is_fit = self.kept_at(place).fits(alloc, plant)?;
        Ok(greatest_on(kept, changes, place, is_fit))
    }

    /// Takes the standing change at a place back, by its inverse tree; it is the last one undone
    /// then, and the undo is noted.
    ///
    /// The refusal that the inverse tree means, or M1: memory ran out. Where the change is to fit,
    /// M1 comes in place of any other refusal.
    fn take_back(
        &mut self,
        alloc: Global,
        plant: &mut Plant,
        place: usize,
        undoing: Undoing,
    ) -> Result<(), Refused>
        requires rules { KeepsTheRules plant.old.state }
        requires place { place < length self.old.changes }
        requires stands { IsTrue (stands_at self.old.changes place) }
        ensures done { OnOk result (WasUndone self.old place plant.old.state plant.new.state self.new) }
        ensures fits { OnOk result (undoing ≡ IfItFits → (k : Kept) → slice_get self.old.changes place ≡ Some k
            → IsWhetherItFits k plant.old.state true) }
        ensures refused { IfErr result (IsDue (refusal_in
            (meaning (inverse_at self.old.changes place) plant.old.state))) }
        ensures same { OnErr result (plant.new.state ≡ plant.old.state) }
        ensures journal { OnErr result (KeepsTheSame self.old self.new) }
        ensures room { KeepsRoom plant.old.room plant.new.room }
    {
        if self.undone.reserve(1).is_err() {
            return Err(Refused::NO_MEMORY);
        }
        if self.undos.reserve(1).is_err() {
            return Err(Refused::NO_MEMORY);
        }
        match self.changes[place].go_back(alloc, plant, undoing) {
            Ok(redo) => {
                let count = self.changes.len() as u64;
                let kept = &mut self.changes[place];
                kept.stands = false;
                kept.undone_after = count;
                self.standing -= 1;
                self.undone.push_reserved(Undone {
                    number: place as u64 + 1,
                    redo,
                });
                self.undos.push_reserved(Undo {
                    place,
                    after: count,
                });
                Ok(())
            }
            Err(why) => Err(why),
        }
    }
}
