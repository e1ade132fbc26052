ghost use Rattle.std.specs.Prelude.{◌≡◌, ◌+◌, ◌<◌, ◌≤◌, [], ℕ, length, IsTrue, OnOk, MatchOption, Some, slice_get};
ghost use Rattle.iocm_model.specs.Operation.State.{State};
ghost use Rattle.iocm_history.specs.InUse.{IsInUse};
ghost use Rattle.iocm_journal.specs.Accepting.{Accepts};
ghost use Rattle.iocm_journal.specs.Journaled.{count_standing};
ghost use Rattle.iocm_journal.specs.Moving.{KeepsTheSame};
ghost use Rattle.iocm_journal.specs.Now.{IsJournalOf};

use crate::kept::{Kept, Undone};
use crate::undos::Undo;
use iocm_plant::Touched;
use iocm_tree::Tree;
use std::alloc::{AllocError, Global};
use std::marker::Model;

/// The accepted changes of a machine: which stand, which are undone, what takes each back, and what
/// does it again. Contracts see these, and whether there is room for one more change. The word is
/// own.
#[derive(Drop)]
pub struct Journal {
    /// Every accepted change, in the order of their numbers, which count from 1.
    pub(crate) changes: Vec<Kept>,
    /// How many of them stand.
    pub(crate) standing: u64,
    /// Those that are undone and not past, the last one undone last.
    pub(crate) undone: Vec<Undone>,
    /// The undos in their order: of each change that doesn't stand the last one is among them.
    /// Contracts don't see them: they only tell quickly whether a change stands on another.
    pub(crate) undos: Vec<Undo>,
}

impl Model for Journal {
    ghost use Rattle.std.specs.Prelude.{◌≡◌, ℕ, Bool, List, nat_lt, refl};
    ghost use Rattle.std.specs.Coded.{code_by, coded×, coded_bool, coded_list, coded_ℕ};
    ghost use Rattle.std.specs.Vec.{vec_len, vec_capacity};
    ghost use Rattle.iocm_journal.specs.contracts.kept.Kept as its_kept;
    ghost use Rattle.iocm_journal.specs.contracts.kept.Undone as its_undone;
    ghost use Rattle.iocm_journal.specs.declared.kept.Kept.{Kept};
    ghost use Rattle.iocm_journal.specs.declared.kept.Undone.{Undone};
    ghost use Rattle.iocm_journal.specs.Journaled.{Journaled, count_standing};
    ghost use Rattle.iocm_journal.specs.Noted.{AreNoted};

    ghost Value = { Journaled };

    ghost coded = { code_by (List Kept × (ℕ × (List Undone × Bool)))
        (coded× (coded_list its_kept.the_row.coded) (coded× coded_ℕ
        (coded× (coded_list its_undone.the_row.coded) coded_bool)))
        (λ j. (j.changes, (j.standing, (j.undone, j.has_room))))
        (λ p. record { changes = p.0; standing = p.1.0; undone = p.1.1.0; has_room = p.1.1.1 })
        (λ _. refl) };

    ghost view = { λ j. record {
      changes = j.changes.items;
      standing = j.standing;
      undone = j.undone.items;
      has_room = nat_lt (vec_len j.changes) (vec_capacity j.changes);
    } };

    ghost invariant = { λ j. (j.standing ≡ count_standing j.changes.items)
        × AreNoted j.changes.items j.undos.items };
}

impl Journal {
    /// The journal of a machine that was opened just now. Can't run out of memory.
    pub fn new(alloc: Global) -> Journal
        ensures { (opening : State) → IsInUse opening → IsJournalOf opening [] result [] }
    {
        Journal {
            changes: Vec::new(alloc),
            standing: 0,
            undone: Vec::new(alloc),
            undos: Vec::new(alloc),
        }
    }

    /// How many changes were accepted. The latest has this number.
    pub fn count(&self) -> u64
        ensures { result ≡ length self.now.changes }
    {
        self.changes.len() as u64
    }

    /// How many of them stand, not more than there are.
    pub fn standing(&self) -> u64
        ensures number { result ≡ self.now.standing }
        ensures counted { result ≡ count_standing self.now.changes }
        ensures most { result ≤ length self.now.changes }
    {
        self.standing
    }

    /// How many changes are undone and not past.
    pub fn undone_count(&self) -> u64
        ensures { result ≡ length self.now.undone }
    {
        self.undone.len() as u64
    }

    /// Makes room for one more change.
    pub fn room(&mut self) -> Result<(), AllocError>
        ensures same { KeepsTheSame self.old self.new }
        ensures room { OnOk result (IsTrue self.new.has_room) }
    {
        self.changes.reserve(1)
    }

    /// Keeps one more change, which stands, and for which there is room; those that are undone
    /// become past. It gives the change's number. The tree and what was performed are to be those
    /// of a change that was just made on the journal's machine: then the journal is one of the
    /// history with the entry that accepts it. Can't run out of memory.
    pub fn accept(&mut self, inverse: Tree, performed: Vec<Touched>) -> u64
        requires { IsTrue self.old.has_room }
        ensures number { result ≡ length self.old.changes + 1 }
        ensures accepts { Accepts inverse performed self.old self.new }
    {
        let number = self.changes.len() as u64 + 1;
        self.changes.push_reserved(Kept {
            inverse,
            performed,
            stands: true,
            undone_after: 0,
        });
        self.standing += 1;
        self.undone.clear();
        number
    }

    /// The place among the changes of a number, counted from 0, if such a change was accepted.
    pub(crate) fn place(&self, number: u64) -> Option<usize>
        ensures { MatchOption result ((at : ℕ) → number ≡ at + 1 → length self.now.changes ≤ at)
            (λ at. (number ≡ at + 1) × (at < length self.now.changes)) }
    {
        if number == 0 || number > self.changes.len() as u64 {
            return None;
        }
        Some((number - 1) as usize)
    }

    /// The change at a place.
    pub(crate) fn kept_at(&self, place: usize) -> &Kept
        requires { place < length self.now.changes }
        ensures { slice_get self.now.changes place ≡ Some result.now }
    {
        &self.changes[place]
    }
}
