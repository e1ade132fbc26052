ghost use Rattle.std.specs.Prelude.{◌≡◌, ◌<◌, ◌^◌, sum_by};
ghost use Rattle.iocm_impact.specs.Counts as meaning;

use crate::marks::{Mark, Marks};
use crate::named_image::NamedImage;
use iocm_plan::DeviceRun;

/// How many devices have each mark.
#[derive(Clone, Copy)]
pub struct Counts {
    /// Devices that aren't seen any more.
    pub gone: usize,
    /// Those that weren't seen before.
    pub came: usize,
    /// Those that are seen in another way.
    pub changed: usize,
    /// Those that are seen as they were, interrupted ones too.
    pub same: usize,
    /// Those of which some path was online, and none is.
    pub lost: usize,
    /// Those that stay online, but not by one route.
    pub interrupted: usize,
    /// Those of which several paths were online, and one is.
    pub one_path: usize,
    /// Those of which a path may go off and on again.
    pub off_and_on: usize,
}

/// An image that is affected, with the counts of its devices.
#[derive(Clone, Copy)]
pub struct ImageCounts {
    /// The image.
    pub image: NamedImage,
    /// How many devices have each mark for it.
    pub counts: Counts,
}

/// How many devices are in the runs that have each mark. The marks of each run stand at its place.
pub fn counts_of(runs: &[DeviceRun], marks: &[Marks]) -> Counts
    requires { sum_by (λ r. r.count) runs.now < 2 ^ 64 }
    ensures { result ≡ meaning.counts_of runs.now marks.now }
{
    Counts {
        gone: count_with(runs, marks, Mark::Gone),
        came: count_with(runs, marks, Mark::Came),
        changed: count_with(runs, marks, Mark::Changed),
        same: count_with(runs, marks, Mark::Same),
        lost: count_with(runs, marks, Mark::Lost),
        interrupted: count_with(runs, marks, Mark::Interrupted),
        one_path: count_with(runs, marks, Mark::OnePath),
        off_and_on: count_with(runs, marks, Mark::OffAndOn),
    }
}

/// How many devices are in the runs that have a mark.
fn count_with(runs: &[DeviceRun], marks: &[Marks], mark: Mark) -> usize
    requires { sum_by (λ r. r.count) runs.now < 2 ^ 64 }
    ensures { result ≡ meaning.count_with mark runs.now marks.now }
{
    marked_sum(runs, marks, mark)
}

/// The same, if it is known to fit.
fn marked_sum(runs: &[DeviceRun], marks: &[Marks], mark: Mark) -> usize
    requires { meaning.count_with mark runs.now marks.now < 2 ^ 64 }
    ensures { result ≡ meaning.count_with mark runs.now marks.now }
{
    runs.iter()
        .zip(marks)
        .map(|(run, own)| if own.has(mark) { run.count } else { 0 })
        .sum()
}
