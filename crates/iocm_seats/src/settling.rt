ghost use Rattle.std.specs.Prelude.{◌≡◌, OnOk, Option, Some, None, T};
ghost use Rattle.std.specs.Option.{option_copied, option_map};
ghost use Rattle.std.specs.FinMap.{from_sorted, get, is_sorted};
ghost use Rattle.iocm_types.specs.SubId.{sub_id_cmp};
ghost use Rattle.iocm_model.specs.Change.Edit.{live_of_altered};
ghost use Rattle.iocm_model.specs.Change.Maps.{with_value};
ghost use Rattle.iocm_seats.specs.declared.seat.Seat as model;
ghost use Rattle.iocm_seats.specs.Seated.{views_seated, HasPlace, KeepsPlaces};
ghost use Rattle.iocm_seats.specs.Settling.{seat_after, settled_all, AreSeen, HavePlaces};

use crate::{KeptSeat, Seat, Seats, ViewChange};
use iocm_live::fresh;
use iocm_types::{Live, SubId, View, value_under};
use std::alloc::{AllocError, Allocator};

/// Gives each subchannel of these changes a place, if it has none. One at which something is seen
/// has a seat, so it isn't searched. No seat changes, and no place is lost.
///
/// `AllocError` (M1): memory ran out.
pub fn make_places<A: Allocator + Clone>(
    seats: &mut Seats<A>,
    changes: &[ViewChange],
) -> Result<(), AllocError>
    requires { AreSeen (views_seated seats.old.seats) changes.now }
    ensures seats { seats.new.seats ≡ seats.old.seats }
    ensures ok { OnOk result (HavePlaces seats.new changes.now) }
    ensures kept { KeepsPlaces seats.old seats.new }
{
    for change in changes {
        make_place(seats, change)?;
    }
    Ok(())
}

/// Gives the subchannel of a change a place, if it has none.
fn make_place<A: Allocator + Clone>(
    seats: &mut Seats<A>,
    change: &ViewChange,
) -> Result<(), AllocError>
    requires { change.now.before ≡ get (views_seated seats.old.seats) change.now.subchannel }
    ensures seats { seats.new.seats ≡ seats.old.seats }
    ensures ok { OnOk result (HasPlace seats.new change.now.subchannel) }
    ensures kept { KeepsPlaces seats.old seats.new }
{
    // For the proof alone: what has a seat has a place.
    seats.has_places();
    if change.before.is_some() {
        return Ok(());
    }
    seats.room(change.subchannel)
}

/// Gives each subchannel of these changes the seat that it has afterwards: none where nothing is
/// seen any more, else the view with a live record. That is the one that comes along for it, or a
/// fresh one where it is new, or else its own. Can't run out of memory.
///
/// Those that come along mostly come in the order of the changes. So each is first looked for after
/// the one that was found before.
pub fn settle_all<A: Allocator>(
    seats: &mut Seats<A>,
    changes: &[ViewChange],
    kept: &[(SubId, Live)],
)
    requires places { HavePlaces seats.old changes.now }
    requires kept { T (is_sorted sub_id_cmp kept.now) }
    ensures seats { seats.new.seats ≡ settled_all (from_sorted kept.now) seats.old.seats changes.now }
    ensures places { seats.new.places ≡ seats.old.places }
{
    let mut near = 0usize;
    for change in changes {
        let own = live_brought(kept, near, change);
        near = near.wrapping_add(usize::from(own.is_some()));
        settle(seats, change, own);
    }
}

/// The live record that comes along for the subchannel of a change, if one does and something is
/// seen there afterwards. Else none is needed, and none is looked for.
fn live_brought(kept: &[(SubId, Live)], near: usize, change: &ViewChange) -> Option<Live>
    requires { T (is_sorted sub_id_cmp kept.now) }
    ensures { (old : Option model.Seat) → seat_after old change.now.after result
        ≡ seat_after old change.now.after (get (from_sorted {R = sub_id_cmp} kept.now) change.now.subchannel) }
{
    if change.after.is_none() {
        return None;
    }
    live_near(kept, near, &change.subchannel)
}

/// The live record that comes along for a subchannel, if one does. It is first looked for at the
/// place `near` of those that come along, and then by binary search.
fn live_near(kept: &[(SubId, Live)], near: usize, subchannel: &SubId) -> Option<Live>
    requires { T (is_sorted sub_id_cmp kept.now) }
    ensures { result ≡ get (from_sorted {R = sub_id_cmp} kept.now) subchannel.now }
{
    match kept.get(near) {
        Some(row) if row.0.order(*subchannel).is_eq() => Some(row.1),
        _ => value_under(kept, subchannel).copied(),
    }
}

/// Gives the subchannel of a change the seat that it has afterwards. A seat that is there is written
/// over, so it is searched once.
fn settle<A: Allocator>(seats: &mut Seats<A>, change: &ViewChange, own: Option<Live>)
    requires { HasPlace seats.old change.now.subchannel }
    ensures seats { seats.new.seats ≡ with_value seats.old.seats change.now.subchannel
        (seat_after (get seats.old.seats change.now.subchannel) change.now.after own) }
    ensures places { seats.new.places ≡ seats.old.places }
{
    let Some(view) = change.after else {
        let _ = seats.take(&change.subchannel);
        return;
    };
    let Some(seat) = seats.get_mut(&change.subchannel) else {
        let live = live_after(None, &view, own);
        let _ = seats.put(&change.subchannel, KeptSeat::new(&Seat { view, live }));
        return;
    };
    let live = live_after(Some(&*seat), &view, own);
    *seat = KeptSeat::new(&Seat { view, live });
}

/// The live record of an altered subchannel: the one that comes along, or else a fresh one where
/// it had none. Or else it is its own, with LPM equal to PIM where its path list changed.
fn live_after(old: Option<&KeptSeat>, new: &View, own: Option<Live>) -> Live
    ensures { result ≡ live_of_altered (option_map (λ s. s.view) (option_copied old.entry)) new.now own
        (option_map (λ s. s.live) (option_copied old.entry)) }
{
    match (own, old) {
        (Some(live), _) => live,
        (None, None) => fresh(new.pim),
        (None, Some(seat)) => own_live(seat, new),
    }
}

/// An altered subchannel's own live record: with LPM equal to PIM where its path list changed.
fn own_live(old: &KeptSeat, new: &View) -> Live
    ensures { result ≡ live_of_altered (Some old.now.view) new.now None (Some old.now.live) }
{
    let live = old.live();
    if old.view().paths == new.paths {
        return live;
    }
    Live {
        lpm: new.pim,
        ..live
    }
}
