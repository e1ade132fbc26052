ghost use Rattle.std.specs.Prelude.{◌≡◌, IfOk, map};
ghost use Rattle.std.specs.List.{filter_map};
ghost use Rattle.iocm_statements.specs.Unread.{Reads};
ghost use Rattle.iocm_values.specs.Reading.{every_at, gathered};
ghost use Rattle.iocm_values.specs.SetPlaces as meaning;
ghost use Rattle.iocm_values.specs.Value.{seen};

use crate::Value;
use crate::css_lists::{CssItem, by_css, in_css};
use iocm_statements::Unread;
use iocm_types::SetNo;
use std::alloc::{AllocError, Global};

/// An item of a list by channel subsystem that stands for a subchannel set by its place.
pub trait SetItem: CssItem {
    ghost use Rattle.std.specs.Prelude.{ℕ, Option};

    /// What the place of a set gives.
    type Entry: Copy + Drop;

    /// What an item gives at the place of a set, if it gives anything.
    ghost in_set: { ℕ → Self → Option Self.Entry };

    fn in_set(self, set: SetNo) -> Option<Self::Entry>
        ensures { result ≡ in_set set self };
}

// What the place of a subchannel set, 0 to 3, gives.
fn place_at<T: SetItem>(set: usize, place: T) -> Option<Option<T::Entry>>
    ensures { result ≡ meaning.place_at T.in_set set place }
{
    if set >= 4 {
        return None;
    }
    let set = SetNo::new(set as u8)?;
    Some(place.in_set(set))
}

#[tactic(auto, using(crate::proofs::Reading::place_steps))]
fn read_places<T: SetItem>(alloc: Global, places: &[T]) -> Result<Vec<Option<T::Entry>>, Unread>
    ensures { Reads (λ v. v.items) result (every_at (meaning.place_at T.in_set) 0 places.now) }
{
    let mut found = Vec::new(alloc);
    for (set, place) in places.iter().enumerate() {
        found.push(place_at(set, *place).ok_or(Unread::Malformed)?)?;
    }
    Ok(found)
}

/// What is there of these, in its order.
#[tactic(auto, using(crate::proofs::Filtering::filter_maps))]
pub fn those_there<T: Copy + Drop>(
    alloc: Global,
    places: &[Option<T>],
) -> Result<Vec<T>, AllocError>
    ensures { IfOk result (λ found. found.items ≡ filter_map (λ x. x) places.now) }
{
    let mut found = Vec::new(alloc);
    for place in places {
        match *place {
            Some(entry) => found.push(entry)?,
            None => continue,
        }
    }
    Ok(found)
}

// Of the places of a channel subsystem the first is that of set 0, and so on.
fn set_places_in<T: SetItem>(alloc: Global, places: &[T], css: u8) -> Result<Vec<T::Entry>, Unread>
    ensures { Reads (λ v. v.items) result (meaning.set_places_in T.in_set T.subsystem places.now css) }
{
    let own = in_css(alloc, places, css)?;
    let found = read_places(alloc, &own)?;
    Ok(those_there(alloc, &found)?)
}

#[tactic(auto, using(crate::proofs::Reading::gathered_steps))]
fn of_all<T: SetItem>(
    alloc: Global,
    places: &[T],
    subsystems: &[u8],
) -> Result<Vec<T::Entry>, Unread>
    ensures { Reads (λ v. v.items) result (gathered (meaning.set_places_in T.in_set T.subsystem places.now)
        (map (λ css. css) subsystems.now)) }
{
    let mut found = Vec::new(alloc);
    for css in subsystems {
        let mut entries = set_places_in(alloc, places, *css)?;
        found.append(&mut entries)?;
    }
    Ok(found)
}

/// What a list by channel subsystem gives whose items stand for the subchannel sets 0 to 3 in their
/// order, with channel subsystems ascending. Malformed where there are more items than sets, or
/// where the list has none of its forms.
pub fn by_set<T: SetItem>(alloc: Global, value: Value) -> Result<Vec<T::Entry>, Unread>
    ensures { Reads (λ v. v.items) result (meaning.by_set T.may_lack T.item T.in_set T.subsystem (seen value.entry)) }
{
    let places: Vec<T> = by_css(alloc, value)?;
    let subsystems = [0, 1, 2, 3, 4, 5];
    of_all(alloc, &places, &subsystems)
}
