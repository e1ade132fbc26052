ghost use Rattle.std.specs.Prelude.{◌≡◌, T, map};
ghost use Rattle.std.specs.List.{AllByRecursion};
ghost use Rattle.std.specs.Map.{keys_of};
ghost use Rattle.std.specs.FinMap.{is_sorted, remove};
ghost use Rattle.std.specs.Prelude.{fold};
ghost use Rattle.iocm_types.specs.SubId.{sub_id_cmp};
ghost use Rattle.iocm_model.specs.Machine.Configuration.{IsKeyed};
ghost use Rattle.iocm_model.specs.Operation.State.{views_of};
ghost use Rattle.iocm_reach.specs.Tabled.{IsReachOf};
ghost use Rattle.iocm_seats.specs.Seated.{lives_seated, HasPlace};
ghost use Rattle.iocm_seats.specs.Exchange.{exchanged, given, met};

use crate::{KeptSeat, Seat, Seats};
use iocm_config::Config;
use iocm_numbers::Numbers;
use iocm_reach::{ReachTable, ReachedWalk};
use iocm_types::{Live, SubId};
use std::alloc::Allocator;

/// Takes the seats of some subchannels out, noting the live record of each, and gives those of
/// others their seats: what is seen there by the configuration and the numbers, with the live
/// record that is given. Can't run out of memory: there are places for these.
pub fn exchange<A: Allocator, B: Allocator, C: Allocator>(
    seats: &mut Seats<A>,
    config: &Config<B>,
    numbers: &Numbers<C>,
    reach: &ReachTable,
    out: &mut [(SubId, Live)],
    back: &[(SubId, Live)],
)
    requires reach { IsReachOf config.now.records reach.now }
    requires apart { T (is_sorted sub_id_cmp out.old) }
    requires places { AllByRecursion (λ row. HasPlace seats.old row.0) back.now }
    ensures seats { seats.new.seats
        ≡ exchanged (views_of config.now.records numbers.now.numbers) seats.old.seats (keys_of out.old) back.now }
    ensures out { out.new ≡ map (met (lives_seated seats.old.seats)) out.old }
    ensures places { seats.new.places ≡ seats.old.places }
{
    take_all(seats, out);
    give_all(seats, config, numbers, reach, back);
}

/// Takes the seats of some subchannels out, noting the live record of each.
fn take_all<A: Allocator>(seats: &mut Seats<A>, out: &mut [(SubId, Live)])
    requires { T (is_sorted sub_id_cmp out.old) }
    ensures seats { seats.new.seats ≡ fold remove seats.old.seats (keys_of out.old) }
    ensures out { out.new ≡ map (met (lives_seated seats.old.seats)) out.old }
    ensures places { seats.new.places ≡ seats.old.places }
{
    for place in 0..out.len() {
        take_one(seats, &mut out[place]);
    }
}

/// Takes the seat of a subchannel out, noting its live record.
fn take_one<A: Allocator>(seats: &mut Seats<A>, row: &mut (SubId, Live))
    ensures seats { seats.new.seats ≡ remove seats.old.seats row.old.0 }
    ensures row { row.new ≡ met (lives_seated seats.old.seats) row.old }
    ensures places { seats.new.places ≡ seats.old.places }
{
    if let Some(seat) = seats.take(&row.0) {
        row.1 = seat.live();
    }
}

/// Gives some subchannels their seats.
fn give_all<A: Allocator, B: Allocator, C: Allocator>(
    seats: &mut Seats<A>,
    config: &Config<B>,
    numbers: &Numbers<C>,
    reach: &ReachTable,
    back: &[(SubId, Live)],
)
    requires reach { IsReachOf config.now.records reach.now }
    requires places { AllByRecursion (λ row. HasPlace seats.old row.0) back.now }
    ensures seats { seats.new.seats
        ≡ fold (given (views_of config.now.records numbers.now.numbers)) seats.old.seats back.now }
    ensures places { seats.new.places ≡ seats.old.places }
{
    // For the proof alone: each record stands under its own key.
    config.has_own_keys();
    let mut views = ReachedWalk::new(config, numbers, reach);
    for row in back {
        give_one(seats, &mut views, row);
    }
}

/// Gives a subchannel its seat, if anything is seen there.
fn give_one<A: Allocator, B: Allocator, C: Allocator>(
    seats: &mut Seats<A>,
    views: &mut ReachedWalk<'_, B, C>,
    row: &(SubId, Live),
)
    requires place { HasPlace seats.old row.now.0 }
    requires keyed { IsKeyed views.old.records }
    ensures seats { seats.new.seats
        ≡ given (views_of views.old.records views.old.numbers) seats.old.seats row.now }
    ensures places { seats.new.places ≡ seats.old.places }
    ensures same { views.new ≡ views.old }
{
    let Some(view) = views.view(row.0) else {
        return;
    };
    let seat = Seat { view, live: row.1 };
    let _ = seats.put(&row.0, KeptSeat::new(&seat));
}
