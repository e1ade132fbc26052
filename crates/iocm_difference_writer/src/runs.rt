ghost use Rattle.std.specs.Prelude.{◌≡◌, ◌≤◌, ◌<◌, ◌∷◌, drop, length, take};
ghost use Rattle.iocm_difference_writer.specs.Runs as meaning;
ghost use Rattle.iocm_difference_writer.specs.Runs.{action_in, actions_in};

use iocm_tree::{Edit, Verb};
use iocm_types::Key;
use std::alloc::Allocator;

/// The most devices that one statement names.
const MOST_DEVICES: usize = 4096;

/// Whether two keys are those of pairs of one path.
fn of_one_path(last: &Key, next: &Key) -> bool
    ensures { result ≡ meaning.of_one_path last.now next.now }
{
    match (last, next) {
        (Key::Online(css, path, _), Key::Online(its_css, its_path, _)) => {
            css == its_css && path == its_path
        }
        _ => false,
    }
}

/// Whether the next key is that of the next pair of one path.
fn is_next_pair(last: &Key, next: &Key) -> bool
    ensures { result ≡ meaning.is_next_pair last.now next.now }
{
    of_one_path(last, next) && last.order(*next).is_lt()
}

/// Whether the records of two keys are put with one verb.
fn are_put_together(last: &Key, next: &Key) -> bool
    ensures { result ≡ meaning.are_put_together last.now next.now }
{
    match (last, next) {
        (Key::Device(_, _), Key::Device(_, _)) => true,
        _ => is_next_pair(last, next),
    }
}

/// Whether a key is deleted in the statement of so many, the last of which is another.
fn are_deleted_together(count: usize, last: &Key, next: &Key) -> bool
    ensures { result ≡ meaning.are_deleted_together count last.now next.now }
{
    match (last, next) {
        (Key::Device(set, number), Key::Device(its_set, its_number)) => {
            count < MOST_DEVICES
                && its_set == set
                && usize::from(its_number.number()) == usize::from(number.number()) + 1
        }
        _ => is_next_pair(last, next),
    }
}

/// Whether an edit goes with a run of so many, by the last one of the run.
fn goes_with<A: Allocator>(count: usize, last: &Edit<A>, next: &Edit<A>) -> bool
    ensures { result ≡ meaning.goes_with count (action_in last.now) (action_in next.now) }
{
    match (last.verb(), next.verb()) {
        (Verb::Add, Verb::Add) | (Verb::Modify, Verb::Modify) => {
            are_put_together(&last.key(), &next.key())
        }
        (Verb::Delete, Verb::Delete) => are_deleted_together(count, &last.key(), &next.key()),
        _ => false,
    }
}

/// How many edits the first run of some edits has.
pub(crate) fn first_run<A: Allocator>(edits: &[Edit<A>]) -> usize
    requires { 0 < length edits.now }
    ensures some { 0 < result }
    ensures within { result ≤ length edits.now }
    ensures run { meaning.runs (actions_in edits.now)
        ≡ actions_in (take result edits.now) ∷ meaning.runs (actions_in (drop result edits.now)) }
{
    let mut count = 1;
    while count < edits.len() && goes_with(count, &edits[count - 1], &edits[count]) {
        count += 1;
    }
    count
}
