ghost use Rattle.std.specs.Prelude.{◌≡◌, None, List, map, IfOk, IfErr, OnOk, OnErr};
ghost use Rattle.std.specs.FinMap.{from_sorted};
ghost use Rattle.iocm_types.specs.declared.refused.At.TheVariants as at;
ghost use Rattle.iocm_types.specs.declared.rule.Rule.TheVariants as rule;
ghost use Rattle.iocm_model.specs.Change.Refusal.{refusal_at};
ghost use Rattle.iocm_model.specs.Change.Refusal as refusal;
ghost use Rattle.iocm_model.specs.Operation.State.{Lives};
ghost use Rattle.iocm_seats.specs.declared.view_change.ViewChange as changed;
ghost use Rattle.iocm_seats.specs.Seated.{lives_seated, views_seated, KeepsPlaces};
ghost use Rattle.iocm_seats.specs.Settling.{settled_all, lives_met, AreSeen};
ghost use Rattle.iocm_tree.specs.Carried.{AreInOrder};
ghost use Rattle.iocm_plant.specs.InTheWay.{first_in_the_way, settling_refusal};
ghost use Rattle.iocm_plant.specs.Refusing.{Hinders};
ghost use Rattle.iocm_plant.specs.Seating.{TellsOfSettling};

use crate::obstacle::Obstacle;
use crate::quiet::Quiet;
use iocm_seats::{Seats, ViewChange, first_not_quiet, list_left, make_places, settle_all};
use iocm_types::{At, Live, Refused, Rule, SubId};
use std::alloc::Global;

/// The live records that altered subchannels had, and a row for each of those that are left.
#[derive(Drop)]
pub struct Settled {
    pub kept: Vec<(SubId, Live)>,
    pub meets: Vec<(SubId, Live)>,
}

/// Gives the subchannels of these changes the seats that they have afterwards, with the live
/// records that come along. The changes are of what is seen at these seats, and come with the live
/// records that they meet.
///
/// B1, where altered subchannels are wanted quiet: the first that isn't. M1: memory ran out.
/// Then no seat has changed, but some subchannels may have got places.
pub fn seat(
    alloc: Global,
    seats: &mut Seats,
    changes: &[ViewChange],
    met: Vec<(SubId, Live)>,
    kept: &[(SubId, Live)],
    quiet: Quiet,
) -> Result<Settled, Obstacle>
    requires seen { AreSeen (views_seated seats.old.seats) changes.now }
    requires met { met.items ≡ lives_met (lives_seated seats.old.seats) changes.now }
    requires kept { AreInOrder kept.now }
    ensures seats { OnOk result (seats.new.seats ≡ settled_all (from_sorted kept.now) seats.old.seats changes.now) }
    ensures told { IfOk result (λ s. TellsOfSettling seats.old.seats changes.now s.kept.items s.meets.items) }
    ensures quiet { OnOk result (settling_refusal seats.old.seats changes.now quiet ≡ None) }
    ensures refused { IfErr result (Hinders (settling_refusal seats.old.seats changes.now quiet)) }
    ensures same { OnErr result (seats.new.seats ≡ seats.old.seats) }
    ensures places { KeepsPlaces seats.old seats.new }
{
    if let Some(subchannel) = first_in_the_way(met.as_slice(), quiet) {
        return Err(Obstacle::Refused(subchannel_refusal(subchannel)));
    }
    make_places(seats, changes)?;
    let left = list_left(alloc, changes)?;
    settle_all(seats, changes, kept);
    Ok(Settled {
        kept: met,
        meets: left,
    })
}

/// The first subchannel of some changes that isn't quiet, where they are wanted quiet, by the live
/// records that they meet.
fn first_in_the_way(met: &[(SubId, Live)], quiet: Quiet) -> Option<SubId>
    ensures { (lives : Lives) (changes : List changed.ViewChange) → met.now ≡ lives_met lives changes
        → result ≡ first_in_the_way quiet (refusal.first_not_quiet lives (map (λ ch. ch.subchannel) changes)) }
{
    match quiet {
        Quiet::Wanted => first_not_quiet(met),
        Quiet::Whatever => None,
    }
}

/// B1 for a subchannel.
fn subchannel_refusal(subchannel: SubId) -> Refused
    ensures { result ≡ refusal_at rule.B1 (at.Subchannel subchannel) }
{
    Refused::about(Rule::B1, At::Subchannel(subchannel))
}
