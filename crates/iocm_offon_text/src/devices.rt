ghost use Rattle.std.specs.Prelude.{◌≡◌, ◌+◌, ◌<◌, ◌^◌, ◌&&◌, nat_le, nat_lt, sum_by};
ghost use Rattle.std.specs.List.{list_any};
ghost use Rattle.iocm_offon_text.specs.Lines as meaning;
ghost use Rattle.iocm_offon.specs.Reached.{runs_in};

use crate::line::{Line, ObjectRange};
use iocm_offon::{Reason, has_run};
use iocm_plan::DeviceRun;
use iocm_types::Key;

/// How many devices a line tells: those of the runs of its reasons, and of devices those that are among its objects.
pub(crate) fn devices_in(runs: &[DeviceRun], line: &Line) -> usize
    requires { sum_by (λ r. r.count) runs.now < 2 ^ 64 }
    ensures { result ≡ meaning.devices_in runs.now line.now }
{
    told_sum(runs, line.ranges(), line.reasons())
}

/// The same, if it is known to fit.
fn told_sum(runs: &[DeviceRun], ranges: &[ObjectRange], reasons: &[Reason]) -> usize
    requires { sum_by (meaning.told_in ranges.now) (runs_in runs.now reasons.now) < 2 ^ 64 }
    ensures { result ≡ sum_by (meaning.told_in ranges.now) (runs_in runs.now reasons.now) }
{
    runs.iter()
        .filter(|run| has_run(reasons, run))
        .map(|run| told_in(ranges, run))
        .sum()
}

/// How many devices of a run are told.
fn told_in(ranges: &[ObjectRange], run: &DeviceRun) -> usize
    ensures { result ≡ meaning.told_in ranges.now run.now }
{
    let mut told = 0;
    for place in 0..run.count {
        if is_told(ranges, run, place) {
            told += 1;
        }
    }
    told
}

/// Whether the device at a place of a run is told.
fn is_told(ranges: &[ObjectRange], run: &DeviceRun, place: usize) -> bool
    ensures { result ≡ list_any (meaning.tells run.now place) ranges.now }
{
    ranges.iter().any(|range| tells(run, place, range))
}

fn tells(run: &DeviceRun, place: usize, range: &ObjectRange) -> bool
    ensures { result ≡ meaning.tells run.now place range.now }
{
    match range.first {
        Key::Device(set, first) => {
            let first = u64::from(first.number());
            let number = u64::from(run.first.number.number());
            run.first.set == set && is_within(first, range.count, number, place)
        }
        _ => true,
    }
}

/// Whether a number and so many more are among so many from a first one on.
fn is_within(first: u64, count: u32, number: u64, place: usize) -> bool
    requires below { first < 2 ^ 16 }
    ensures { result ≡ (nat_le first (number + place) && nat_lt (number + place) (first + count)) }
{
    let place = place as u64;
    let end = first + u64::from(count);
    first.saturating_sub(number) <= place && place < end.saturating_sub(number)
}
