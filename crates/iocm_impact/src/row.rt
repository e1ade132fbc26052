ghost use Rattle.std.specs.Prelude.{◌≡◌, ◌+◌, ◌<◌, ◌^◌};
ghost use Rattle.std.specs.Option.{option_eq};
ghost use Rattle.iocm_impact.specs.Rows as meaning;

use iocm_plan::{DeviceRun, Effect, is_after, is_same_truth};
use iocm_types::View;

/// A run of devices, and what a change does to an image and each of them.
#[derive(Clone, Copy)]
pub struct Row {
    /// The devices.
    pub run: DeviceRun,
    /// What is done.
    pub effect: Effect,
}

/// Whether the same is told of two effects, whatever the numbers of their devices.
pub fn tells_same(one: &Effect, other: &Effect) -> bool
    ensures { result ≡ meaning.tells_same one.now other.now }
{
    are_told_alike(&one.before, &other.before)
        && are_told_alike(&one.after, &other.after)
        && is_same_truth(one.interrupted, other.interrupted)
        && is_same_truth(one.offon, other.offon)
}

/// Whether views tell the same, or neither is there.
fn are_told_alike(one: &Option<View>, other: &Option<View>) -> bool
    ensures { result ≡ option_eq meaning.tells_same_view one.now other.now }
{
    match (one, other) {
        (Some(view), Some(another)) => tells_same_view(view, another),
        (None, None) => true,
        _ => false,
    }
}

/// Whether views have the same paths, installed and online alike.
fn tells_same_view(one: &View, other: &View) -> bool
    ensures { result ≡ meaning.tells_same_view one.now other.now }
{
    one.paths == other.paths && one.pim == other.pim && one.pam == other.pam
}

/// Whether a row follows another one: its devices are the next ones, and the same is told.
pub(crate) fn follows(row: &Row, next: &Row) -> bool
    ensures { result ≡ meaning.follows row.now next.now }
{
    let (first, other) = (row.run.first, next.run.first);
    other.set == first.set
        && is_after(first.number, row.run.count, other.number)
        && tells_same(&row.effect, &next.effect)
}

/// A row with so many devices more.
pub(crate) fn with_more(row: &Row, count: usize) -> Row
    requires { row.now.run.count + count < 2 ^ 64 }
    ensures { result ≡ meaning.with_more row.now count }
{
    Row {
        run: DeviceRun {
            first: row.run.first,
            count: row.run.count + count,
        },
        effect: row.effect,
    }
}
