ghost use Rattle.std.specs.Prelude.{◌≡◌, ◌+◌, ◌*◌, ◌-◌, true, is_some, OnOk};
ghost use Rattle.std.specs.Borrow.{sem};
ghost use Rattle.std.specs.Option.{option_copied, option_copied_mut};
ghost use Rattle.iocm_grid.specs.Gridded.{IsInRange};
ghost use Rattle.iocm_grid.specs.Levels.{index_of, lends_slot, slot_at, slot_in, AddsEmpty};

use crate::level::Level;
use iocm_types::SubId;
use std::alloc::{AllocError, Allocator};

/// The slots of a subchannel set, for each number those of its images, MIF image IDs 1 to F.
pub type Slots<V, A> = Level<Option<V>, A>;

/// Those of a channel subsystem, by subchannel set.
pub type Sets<V, A> = Level<Slots<V, A>, A>;

/// All slots, by channel subsystem.
pub type Levels<V, A> = Level<Sets<V, A>, A>;

/// How many images a channel subsystem can have.
const IMAGES: usize = 15;

/// The index of a subchannel's slot among those of its set.
fn index_of(key: &SubId) -> usize
    ensures index { result ≡ index_of key.now }
    ensures in_range { IsInRange key.now }
{
    // For the proof alone: they are in their ranges.
    let css = key.image.css.number();
    let set = key.set.number();
    let _ = (css, set);
    usize::from(key.number) * IMAGES + usize::from(key.image.mif.number()) - 1
}

/// The slot of a subchannel, if it has a place.
pub fn slot<'a, V, A: Allocator>(levels: &'a Levels<V, A>, key: &SubId) -> Option<&'a Option<V>>
    ensures { option_copied result ≡ slot_at levels.now key.now }
{
    let sets = levels.get(usize::from(key.image.css.number()))?;
    let slots = sets.get(usize::from(key.set.number()))?;
    slots.get(index_of(key))
}

/// The slot of a subchannel, to be changed in its place.
pub fn slot_mut<'a, V, A: Allocator>(
    levels: &'a mut Levels<V, A>,
    key: &SubId,
) -> Option<&'a mut Option<V>>
    ensures* writes_back { sem 𝓛 (lends_slot V.row A.row A.Allocator levels.entry key.now result) }
    ensures value { option_copied_mut result ≡ slot_at levels.old key.now }
    ensures in_range { IsInRange key.now }
{
    let css = usize::from(key.image.css.number());
    let set = usize::from(key.set.number());
    let index = index_of(key);
    let sets = levels.get_mut(css)?;
    let slots = sets.get_mut(set)?;
    slots.get_mut(index)
}

/// Gives a subchannel an empty slot, if it has none. Each slot stays as it is, and those that come
/// are empty.
///
/// `AllocError`: memory ran out.
pub fn make_place<V: Drop, A: Allocator + Clone>(
    levels: &mut Levels<V, A>,
    key: &SubId,
) -> Result<(), AllocError>
    ensures kept { AddsEmpty (slot_at levels.old) (slot_at levels.new) }
    ensures ok { OnOk result (is_some (slot_at levels.new key.now) ≡ true) }
{
    let css = usize::from(key.image.css.number());
    levels.reach(css)?;
    match levels.get_mut(css) {
        Some(sets) => make_in(sets, key),
        None => unreachable!(),
    }
}

/// Gives a subchannel an empty slot among those of its channel subsystem.
fn make_in<V: Drop, A: Allocator + Clone>(
    sets: &mut Sets<V, A>,
    key: &SubId,
) -> Result<(), AllocError>
    ensures kept { AddsEmpty (slot_in sets.old) (slot_in sets.new) }
    ensures ok { OnOk result (is_some (slot_in sets.new key.now) ≡ true) }
{
    let set = usize::from(key.set.number());
    sets.reach(set)?;
    match sets.get_mut(set) {
        Some(slots) => slots.reach_slot(index_of(key)),
        None => unreachable!(),
    }
}
