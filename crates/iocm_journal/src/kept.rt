ghost use Rattle.std.specs.Prelude.{◌≡◌, true, IfOk, IfErr, OnOk, OnErr, Ok};
ghost use Rattle.iocm_model.specs.Change.InverseTree.{TakesBack};
ghost use Rattle.iocm_model.specs.Change.Meaning.{meaning};
ghost use Rattle.iocm_model.specs.Laws.Trees.{KeepsTheRules};
ghost use Rattle.iocm_tree.specs.Trees.{plain};
ghost use Rattle.iocm_plant.specs.Operating.{KeepsRoom};
ghost use Rattle.iocm_plant.specs.Refusing.{IsDue};
ghost use Rattle.iocm_activate.specs.Done.{edits_meant, refusal_in};
ghost use Rattle.iocm_journal.specs.Standing.{IsWhetherItFits};
ghost use Rattle.iocm_journal.specs.declared.kept.Undoing.TheVariants.{IfItFits};

use iocm_activate::{carry_back, carry_out, fits};
use iocm_plant::{Plant, Touched};
use iocm_tree::Tree;
use iocm_types::Refused;
use std::alloc::{AllocError, Global};

/// An accepted change, as the journal keeps it. The word is own.
#[derive(Drop)]
pub struct Kept {
    /// The tree that takes it back, as its first acceptance gave it.
    pub inverse: Tree,
    /// What each of its edits did, in their order.
    pub performed: Vec<Touched>,
    /// Whether it stands.
    pub stands: bool,
    /// How many changes were accepted when it was last undone; 0, if it never was.
    pub undone_after: u64,
}

/// A change that is undone, and not past. The word is own.
#[derive(Drop)]
pub struct Undone {
    /// Its number, from 1.
    pub number: u64,
    /// The tree that does it again, where the configuration and the numbers are as its undo left
    /// them.
    pub redo: Tree,
}

/// How a change is undone. The word is own.
#[derive(Clone, Copy)]
pub enum Undoing {
    /// Whether it fits or not.
    Anyway,
    /// Only if it fits.
    IfItFits,
}

impl Kept {
    /// Whether the change fits a machine that keeps the rules. The state stays as it is.
    ///
    /// `AllocError` (M1): memory ran out.
    pub fn fits(&self, alloc: Global, plant: &mut Plant) -> Result<bool, AllocError>
        requires { KeepsTheRules plant.old.state }
        ensures fits { IfOk result (λ is. IsWhetherItFits self.now plant.old.state is) }
        ensures same { plant.new.state ≡ plant.old.state }
        ensures room { KeepsRoom plant.old.room plant.new.room }
    {
        fits(alloc, plant, &self.inverse, self.performed.as_slice())
    }

    /// Carries out the tree that takes the change back, on a machine that keeps the rules, and gives
    /// the tree that does it again.
    ///
    /// Refused as by `carry_out`. Where the change is to fit, each refusal is M1, whatever stood in
    /// the way. A refused change leaves the state as it was.
    pub fn go_back(
        &self,
        alloc: Global,
        plant: &mut Plant,
        undoing: Undoing,
    ) -> Result<Tree, Refused>
        requires { KeepsTheRules plant.old.state }
        ensures means { OnOk result (meaning (plain self.now.inverse) plant.old.state
            ≡ Ok (record { state = plant.new.state; edits = edits_meant (plain self.now.inverse) plant.old.state })) }
        ensures takes_back { IfOk result (λ t. TakesBack (plain t)
            (edits_meant (plain self.now.inverse) plant.old.state) plant.old.state) }
        ensures fits { OnOk result (undoing ≡ IfItFits → IsWhetherItFits self.now plant.old.state true) }
        ensures refused { IfErr result (IsDue (refusal_in (meaning (plain self.now.inverse) plant.old.state))) }
        ensures same { OnErr result (plant.new.state ≡ plant.old.state) }
        ensures room { KeepsRoom plant.old.room plant.new.room }
    {
        match undoing {
            Undoing::Anyway => carry_out(alloc, plant, &self.inverse),
            Undoing::IfItFits => {
                match carry_back(alloc, plant, &self.inverse, self.performed.as_slice()) {
                    Some(redo) => Ok(redo),
                    None => Err(Refused::NO_MEMORY),
                }
            }
        }
    }
}
