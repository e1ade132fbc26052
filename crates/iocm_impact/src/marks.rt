ghost use Rattle.std.specs.Prelude.{◌≡◌, IfOk, map};
ghost use Rattle.std.specs.List.{zip};
ghost use Rattle.iocm_impact.specs.Marks as meaning;

use iocm_plan::Effect;
use std::alloc::{AllocError, Global};

/// A word for what a change does to an image and a device.
#[derive(Clone, Copy)]
pub enum Mark {
    /// The device isn't seen any more.
    Gone,
    /// The device wasn't seen before.
    Came,
    /// The device is seen in another way.
    Changed,
    /// The device is seen as it was.
    Same,
    /// Some path was online, and none is.
    Lost,
    /// Paths are online before and after, and none of them stays online by one route.
    Interrupted,
    /// Several paths were online, and one is.
    OnePath,
    /// Some path stays online by another route, so that it may go off and on again.
    OffAndOn,
}

/// Which of these words hold.
#[derive(Clone, Copy)]
pub struct Marks {
    /// `Mark::Gone`.
    pub gone: bool,
    /// `Mark::Came`.
    pub came: bool,
    /// `Mark::Changed`.
    pub changed: bool,
    /// `Mark::Same`.
    pub same: bool,
    /// `Mark::Lost`.
    pub lost: bool,
    /// `Mark::Interrupted`.
    pub interrupted: bool,
    /// `Mark::OnePath`.
    pub one_path: bool,
    /// `Mark::OffAndOn`.
    pub off_and_on: bool,
}

impl Marks {
    /// None of the words.
    pub fn none() -> Marks
        ensures { result ≡ meaning.no_marks }
    {
        Marks {
            gone: false,
            came: false,
            changed: false,
            same: false,
            lost: false,
            interrupted: false,
            one_path: false,
            off_and_on: false,
        }
    }

    /// The words that hold of what a change does.
    pub fn of(effect: &Effect) -> Marks
        ensures { result ≡ meaning.marks_of effect.now }
    {
        Marks {
            gone: effect.is_gone(),
            came: effect.has_come(),
            changed: effect.is_changed(),
            same: effect.is_same(),
            lost: effect.is_lost(),
            interrupted: effect.interrupted,
            one_path: effect.has_one_path_left(),
            off_and_on: effect.offon,
        }
    }

    /// The words that hold here or there.
    pub fn or(&self, other: &Marks) -> Marks
        ensures { result ≡ meaning.either self.now other.now }
    {
        Marks {
            gone: self.gone || other.gone,
            came: self.came || other.came,
            changed: self.changed || other.changed,
            same: self.same || other.same,
            lost: self.lost || other.lost,
            interrupted: self.interrupted || other.interrupted,
            one_path: self.one_path || other.one_path,
            off_and_on: self.off_and_on || other.off_and_on,
        }
    }

    /// Whether one of the words holds.
    pub fn has(&self, mark: Mark) -> bool
        ensures { result ≡ meaning.has mark self.now }
    {
        match mark {
            Mark::Gone => self.gone,
            Mark::Came => self.came,
            Mark::Changed => self.changed,
            Mark::Same => self.same,
            Mark::Lost => self.lost,
            Mark::Interrupted => self.interrupted,
            Mark::OnePath => self.one_path,
            Mark::OffAndOn => self.off_and_on,
        }
    }
}

/// The marks of each of some effects.
///
/// `AllocError` (M1): memory ran out.
pub fn marks_of_all(alloc: Global, effects: &[Effect]) -> Result<Vec<Marks>, AllocError>
    ensures { IfOk result (λ marks. marks.items ≡ map meaning.marks_of effects.now) }
{
    effects
        .iter()
        .map(|effect| Marks::of(effect))
        .collect(alloc)
}

/// At each place the words that hold here or there.
///
/// `AllocError` (M1): memory ran out.
pub fn either_of_all(
    alloc: Global,
    marks: &[Marks],
    others: &[Marks],
) -> Result<Vec<Marks>, AllocError>
    ensures { IfOk result
        (λ all. all.items ≡ map (λ p. meaning.either p.0 p.1) (zip marks.now others.now)) }
{
    marks
        .iter()
        .zip(others)
        .map(|(own, other)| own.or(other))
        .collect(alloc)
}
