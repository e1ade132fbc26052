ghost use Rattle.std.specs.Prelude.{◌≡◌, ◌&&◌, ◌==◌};
ghost use Rattle.std.specs.Cmp.Lexicographic.{pointwise};
ghost use Rattle.std.specs.Option.{option_eq};
ghost use Rattle.iocm_model.specs.Change.Edit.{same_view};
ghost use Rattle.iocm_activate.specs.Fitting.{is_turned, is_turned_number, is_turned_view};

use iocm_numbers::NumberChange;
use iocm_plant::Touched;
use iocm_seats::ViewChange;
use iocm_types::View;

/// Whether an edit did just what another one did, turned round: each change at the same cell, from
/// what was there after that one to what was there before it.
pub fn is_turned(now: &Touched, was: &Touched) -> bool
    ensures { result ≡ is_turned now.now was.now }
{
    are_numbers_turned(now.numbers.as_slice(), was.numbers.as_slice())
        && are_views_turned(now.subchannels.as_slice(), was.subchannels.as_slice())
}

/// Whether these changes of numbers are the others turned round, one for one.
fn are_numbers_turned(now: &[NumberChange], was: &[NumberChange]) -> bool
    ensures { result ≡ pointwise is_turned_number now.now was.now }
{
    if now.len() != was.len() {
        return false;
    }
    for i in 0..now.len() {
        if !is_number_turned(&now[i], &was[i]) {
            return false;
        }
    }
    true
}

/// Whether these changes of views are the others turned round, one for one.
fn are_views_turned(now: &[ViewChange], was: &[ViewChange]) -> bool
    ensures { result ≡ pointwise is_turned_view now.now was.now }
{
    if now.len() != was.len() {
        return false;
    }
    for i in 0..now.len() {
        if !is_view_turned(&now[i], &was[i]) {
            return false;
        }
    }
    true
}

/// Whether a change of a number is the other turned round.
fn is_number_turned(now: &NumberChange, was: &NumberChange) -> bool
    ensures { result ≡ is_turned_number now.now was.now }
{
    now.cell.cmp(&was.cell).is_eq() && now.before == was.after && now.after == was.before
}

/// Whether a change of a view is the other turned round.
fn is_view_turned(now: &ViewChange, was: &ViewChange) -> bool
    ensures { result ≡ is_turned_view now.now was.now }
{
    now.subchannel.cmp(&was.subchannel).is_eq()
        && is_same(&now.before, &was.after)
        && is_same(&now.after, &was.before)
}

/// Whether two sights are one.
fn is_same(one: &Option<View>, other: &Option<View>) -> bool
    ensures { result ≡ option_eq same_view one.now other.now }
{
    match (one, other) {
        (Some(view), Some(seen)) => view == seen,
        (None, None) => true,
        _ => false,
    }
}
