ghost use Rattle.std.specs.Prelude.{◌≡◌, [], IfOk, IsOk, OnErr, OnOk, ◌≤◌, if◌then◌else◌};
ghost use Rattle.std.specs.Borrow.{sem};
ghost use Rattle.std.specs.Option.{option_copied, option_copied_mut};
ghost use Rattle.std.specs.FinMap as map;
ghost use Rattle.iocm_types.specs.declared.sub_id.SubId as subchannels;
ghost use Rattle.iocm_grid.specs.Gridded.{HasPlace, RowsHavePlaces};
ghost use Rattle.iocm_grid.specs.Lent.{lends_row};

use crate::level::Level;
use crate::levels::{Levels, make_place, slot, slot_mut};
use iocm_types::SubId;
use std::alloc::{AllocError, Allocator, Global};
use std::marker::Model;

/// Rows by subchannel, each found by its place. A subchannel whose row is taken out keeps its
/// place. Contracts see the rows as a finite map, and the subchannels that have a place.
#[derive(Drop)]
pub struct Grid<V, A: Allocator = Global> {
    levels: Levels<V, A>,
    len: usize,
}

impl<V, A: Allocator> Model for Grid<V, A> {
    ghost use Rattle.std.specs.Prelude.{List, refl};
    ghost use Rattle.std.specs.FinMap as map;
    ghost use Rattle.std.specs.Coded.{code_by, coded×, coded_list, codes};
    ghost use Rattle.iocm_types.specs.declared.sub_id.SubId as sub_id;
    ghost use Rattle.iocm_grid.specs.Gridded.{Gridded, Rows, gridded, IsCounted};

    ghost Value = { Gridded V };

    ghost coded = { code_by (Rows V × List sub_id.SubId)
        (coded× (map.code (Prim.hlevel codes) V.code) (coded_list (Prim.hlevel codes)))
        (λ g. (g.rows, g.places)) (λ p. record { rows = p.0; places = p.1 }) (λ _. refl) };

    ghost view = { λ g. gridded g.levels };

    ghost invariant = { λ g. IsCounted g.levels g.len };
}

impl<V, A: Allocator> Grid<V, A> {
    /// A grid without rows and places. Can't run out of memory.
    pub fn new(alloc: A) -> Self
        ensures rows { result.rows ≡ map.empty }
        ensures places { result.places ≡ [] }
    {
        Grid {
            levels: Level::new(alloc),
            len: 0,
        }
    }

    /// How many rows there are.
    pub fn len(&self) -> usize
        ensures { result ≡ map.len self.now.rows }
    {
        self.len
    }

    /// The row of a subchannel, if it has one.
    pub fn get(&self, key: &SubId) -> Option<&V>
        ensures { option_copied result ≡ map.get self.now.rows key.now }
    {
        slot(&self.levels, key)?.as_ref()
    }

    /// The row of a subchannel, to be changed in its place. Can't run out of memory.
    pub fn get_mut(&mut self, key: &SubId) -> Option<&mut V>
        ensures* writes_back { sem 𝓛 (lends_row V.row A.row A.Allocator self.entry key.now result) }
        ensures value { option_copied_mut result ≡ map.get self.old.rows key.now }
    {
        match slot_mut(&mut self.levels, key)? {
            Some(row) => Some(row),
            None => None,
        }
    }

    /// A subchannel that has a row has a place, in every grid. It reads nothing, and is there for
    /// proofs: a row that is replaced needs no call of `room`.
    pub fn has_places(&self)
        ensures { RowsHavePlaces self.now }
    {
        let _ = &self.len;
    }

    /// Gives a subchannel a place, if it has none. Each other one that has a place keeps it, and no
    /// row changes. Subchannels of lower numbers may get places, too.
    ///
    /// `AllocError` (M1): memory ran out, which can't be where the subchannel has a place
    /// already.
    pub fn room(&mut self, key: &SubId) -> Result<(), AllocError>
    where
        V: Drop,
        A: Clone,
        ensures rows { self.new.rows ≡ self.old.rows }
        ensures ok { OnOk result (HasPlace self.new key.now) }
        ensures kept { (x : subchannels.SubId) → HasPlace self.old x → HasPlace self.new x }
        ensures succeeds { HasPlace self.old key.now → IsOk result }
    {
        if slot(&self.levels, key).is_some() {
            return Ok(());
        }
        make_place(&mut self.levels, key)
    }

    /// Gives a subchannel that has a place a row, and gives back the one that it had. Can't run
    /// out of memory.
    pub fn put(&mut self, key: &SubId, row: V) -> Option<V>
        requires { HasPlace self.old key.now }
        ensures before { result ≡ map.get self.old.rows key.now }
        ensures rows { self.new.rows ≡ map.insert self.old.rows key.now row }
        ensures places { self.new.places ≡ self.old.places }
    {
        let Some(slot) = slot_mut(&mut self.levels, key) else {
            unreachable!()
        };
        let before = slot.replace(row);
        self.len += one_if(before.is_none());
        before
    }

    /// Gives a subchannel a row, and a place before that if it has none. Gives back the row that it
    /// had. Each other one that has a place keeps it. One search is enough where it has a place.
    ///
    /// `AllocError` (M1): memory ran out, which can't be where the subchannel has a place
    /// already. Then no row has changed.
    pub fn add(&mut self, key: &SubId, row: V) -> Result<Option<V>, AllocError>
    where
        V: Drop,
        A: Clone,
        ensures before { IfOk result (λ had. had ≡ map.get self.old.rows key.now) }
        ensures rows { OnOk result (self.new.rows ≡ map.insert self.old.rows key.now row) }
        ensures ok { OnOk result (HasPlace self.new key.now) }
        ensures err { OnErr result (self.new.rows ≡ self.old.rows) }
        ensures kept { (x : subchannels.SubId) → HasPlace self.old x → HasPlace self.new x }
        ensures succeeds { HasPlace self.old key.now → IsOk result }
    {
        let Some(own) = slot_mut(&mut self.levels, key) else {
            self.room(key)?;
            return Ok(self.put(key, row));
        };
        let had = own.replace(row);
        self.len += one_if(had.is_none());
        Ok(had)
    }

    /// Takes the row of a subchannel out, if it has one. Its place stays. Can't run out of
    /// memory.
    pub fn take(&mut self, key: &SubId) -> Option<V>
        ensures before { result ≡ map.get self.old.rows key.now }
        ensures rows { self.new.rows ≡ map.remove self.old.rows key.now }
        ensures places { self.new.places ≡ self.old.places }
    {
        let slot = slot_mut(&mut self.levels, key)?;
        let before = slot.take();
        self.len -= one_if(before.is_some());
        before
    }
}

/// One where something is so, else nothing.
fn one_if(is_so: bool) -> usize
    ensures value { result ≡ (if is_so then 1 else 0) }
    ensures small { result ≤ 1 }
{
    if is_so { 1 } else { 0 }
}
