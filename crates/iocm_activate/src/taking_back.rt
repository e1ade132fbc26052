ghost use Rattle.std.specs.Prelude.{◌≡◌, ◌<◌, ◌≤◌, ◌++◌, ◌∷◌, [], length, take, drop, MatchOption};
ghost use Rattle.iocm_model.specs.Operation.State.{State};
ghost use Rattle.iocm_activate.specs.Told.{CanTakeBack, LeadsTo, way_back};

use crate::log::{Log, Mark};
use iocm_plant::{Applied, Plant};

/// Takes the edits back that were performed since a mark was made, the last one first. Can't run
/// out of memory.
pub fn take_back(plant: &mut Plant, log: &mut Log, mark: Mark)
    requires { CanTakeBack (drop mark.done log.old.done.items) plant.old }
    ensures state { (s : State) → LeadsTo (way_back (drop mark.done log.old.done.items)) s plant.old
        → plant.new.state ≡ s }
    ensures room { plant.new.room ≡ plant.old.room }
    ensures done { log.new.done.items ≡ take mark.done log.old.done.items }
    ensures keys { log.new.keys.items ≡ take mark.keys log.old.keys.items }
    ensures kept { log.new.kept ≡ mark.kept }
{
    while let Some(applied) = pop_past(&mut log.done, mark.done) {
        let Applied {
            inverse,
            touched: _touched,
        } = applied;
        let _again = plant.unapply(inverse);
    }
    log.keys.truncate(mark.keys);
    log.kept = mark.kept;
}

/// Takes all edits back that a log tells of. Can't run out of memory.
pub fn take_all_back(plant: &mut Plant, log: Log)
    requires back { CanTakeBack log.done.items plant.old }
    ensures undone { (s : State) → LeadsTo (way_back log.done.items) s plant.old → plant.new.state ≡ s }
    ensures room { plant.new.room ≡ plant.old.room }
{
    let mut log = log;
    let start = Mark {
        done: 0,
        keys: 0,
        kept: 0,
    };
    take_back(plant, &mut log, start);
}

/// The last of these edits, where there are more than so many.
fn pop_past(done: &mut Vec<Applied>, most: usize) -> Option<Applied>
    ensures most { MatchOption result (length done.old.items ≤ most) (λ a. most < length done.old.items) }
    ensures done { MatchOption result (done.new.items ≡ done.old.items)
        (λ a. done.old.items ≡ done.new.items ++ a ∷ []) }
{
    if done.len() <= most {
        return None;
    }
    done.pop()
}
