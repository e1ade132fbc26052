ghost use Rattle.std.specs.Prelude.{◌≡◌, ◌⊎◌, ◌<◌, ◌≤◌, [], ℕ, None, IsSome, IsNone};
ghost use Rattle.std.specs.Prelude.{IfSome, Some, IfOk, OnOk, IsOk, length};
ghost use Rattle.std.specs.FinMap as map;
ghost use Rattle.iocm_types.specs.declared.place.NumberCell as cell_type;
ghost use Rattle.iocm_types.specs.declared.place.Place as place_type;
ghost use Rattle.iocm_model.specs.Machine.Numbering.{cells_of, device_at};
ghost use Rattle.iocm_model.specs.Change.Renumbering as renumbering;
ghost use Rattle.iocm_numbers.specs.Numbered.{cell_at, cells_from, HasCellRoom, HasNoNumberTwice};
ghost use Rattle.iocm_numbers.specs.Numbered.{HasPlaceRoom, HasRoom, HasSameRoom, HasSmallDevices, KeepsRoom};
ghost use Rattle.iocm_numbers.specs.TiedTables as tied;

use crate::bits::{clear_bit, clear_words, lowest_clear, set_bit};
use iocm_table::{Rows, Table};
use iocm_types::{Css, DevNo, NumberCell, Place, SetNo};
use std::alloc::{AllocError, Allocator, Global};
use std::marker::Model;

/// The words in which the numbers that are given away are noted: 65,536 bits for each channel
/// subsystem and set.
pub const ALL_WORDS: usize = 24576;

/// The subchannel numbers of devices, and the devices of numbers. Contracts see the finite map from
/// places to numbers, and what can be placed without memory.
#[derive(Drop)]
pub struct Numbers<A: Allocator = Global> {
    pub(crate) places: Table<Place, u16, A>,
    pub(crate) cells: Table<NumberCell, DevNo, A>,
    pub(crate) words: Vec<u64, A>,
}

impl<A: Allocator> Model for Numbers<A> {
    ghost use Rattle.std.specs.Prelude.{refl, List};
    ghost use Rattle.std.specs.FinMap as map;
    ghost use Rattle.std.specs.Coded.{code_by, coded×, coded_ℕ, codes, coded_list};
    ghost use Rattle.iocm_types.specs.declared.place.Place.{Place};
    ghost use Rattle.iocm_types.specs.declared.place.NumberCell.{NumberCell};
    ghost use Rattle.iocm_types.specs.Place.{place_cmp};
    ghost use Rattle.iocm_table.specs.Slots.{rows};
    ghost use Rattle.iocm_model.specs.Machine.Numbering.{Numbering};
    ghost use Rattle.iocm_numbers.specs.Numbered.{Numbered};
    ghost use Rattle.iocm_numbers.specs.TiedTables.{AreTied};

    ghost Value = { Numbered };

    ghost coded = { code_by (Numbering × (List Place × List NumberCell))
        (coded× (map.code (Prim.hlevel codes) coded_ℕ)
        (coded× (coded_list (Prim.hlevel codes)) (coded_list (Prim.hlevel codes))))
        (λ s. (s.numbers, (s.place_room, s.cell_room)))
        (λ p. record { numbers = p.0; place_room = p.1.0; cell_room = p.1.1 })
        (λ _. refl) };

    ghost view = { λ n. record {
      numbers = rows place_cmp n.places;
      place_room = n.places.places;
      cell_room = n.cells.places;
    } };

    ghost invariant = { λ n. AreTied n.places n.cells n.words.items };
}

impl<A: Allocator + Copy> Numbers<A> {
    /// No numbers, and no room.
    ///
    /// `AllocError` (M1): memory ran out for the notes of which numbers are given away, 192 KB.
    pub fn new(alloc: A) -> Result<Self, AllocError>
        ensures numbers { IfOk result (λ n. n.numbers ≡ map.empty) }
        ensures place_room { IfOk result (λ n. n.place_room ≡ []) }
        ensures cell_room { IfOk result (λ n. n.cell_room ≡ []) }
    {
        Ok(Numbers {
            places: Table::new(alloc),
            cells: Table::new(alloc),
            words: clear_words(alloc, ALL_WORDS)?,
        })
    }
}

impl<A: Allocator> Numbers<A> {
    /// The subchannel number of a device at its place, 0000 to FFFF, if it has one.
    pub fn number_of(&self, place: Place) -> Option<u16>
        ensures { result ≡ map.get self.now.numbers place }
    {
        self.places.get(&place).copied()
    }

    /// The device that has a subchannel number, if one has it.
    pub fn device_at(&self, cell: NumberCell) -> Option<DevNo>
        ensures { result ≡ device_at self.now.numbers cell }
    {
        self.cells.get(&cell).copied()
    }

    /// All numbers that devices have, with their devices, by channel subsystem, set and number.
    pub fn cells(&self) -> Rows<'_, NumberCell, DevNo>
        ensures { result ≡ map.entries (cells_of self.now.numbers) }
    {
        self.cells.walk()
    }

    /// The numbers that devices have in a channel subsystem and in those after it, with these
    /// devices, by channel subsystem, set and number. The time is that of one search.
    pub fn cells_from(&self, css: Css) -> Rows<'_, NumberCell, DevNo>
        ensures { result ≡ cells_from css (map.entries (cells_of self.now.numbers)) }
    {
        self.cells.walk_from(&first_cell(css))
    }

    /// The lowest number that no device has in a channel subsystem and set, if one of the 65,536 is
    /// free. The time is that of looking at a bit for each lower number, 64 at a time: at 1,024
    /// words at the most, however many devices there are.
    pub fn lowest_free(&self, css: Css, set: SetNo) -> Option<u16>
        ensures some { IfSome result (λ number. number ≡ renumbering.lowest_free self.now.numbers css set) }
        ensures none { IsNone result → 65536 ≤ renumbering.lowest_free self.now.numbers css set }
        ensures found { length (renumbering.numbers_in self.now.numbers css set) < 65536 → IsSome result }
    {
        let first = (usize::from(css.number()) * 4 + usize::from(set.number())) * 1024;
        lowest_clear(self.words.as_slice(), first)
    }

    /// No number comes twice in a channel subsystem and set, and device numbers have 16 bits: facts
    /// for callers' proofs, with nothing to run.
    pub fn are_apart(&self)
        ensures apart { HasNoNumberTwice self.now.numbers }
        ensures small { HasSmallDevices self.now.numbers }
    {
        // For the proof alone: what always holds of the tables is known once they are read.
        let _words = &self.words;
    }

    /// Each number that a device has has room: a fact for callers' proofs, with nothing to run.
    pub fn have_room(&self)
        ensures { (p : place_type.Place) (k : ℕ) → map.get self.now.numbers p ≡ Some k → HasRoom self.now p k }
    {
        self.places.has_places();
        self.cells.has_places();
    }

    /// Makes room for a number at a place. What had room has it still, nothing else gets room, and
    /// no number changes.
    ///
    /// `AllocError` (M1): memory ran out, which can't be where there is room already.
    pub fn room(&mut self, place: Place, number: u16) -> Result<(), AllocError>
    where
        A: Clone,
        ensures numbers { self.new.numbers ≡ self.old.numbers }
        ensures ok { OnOk result (HasRoom self.new place number) }
        ensures kept { KeepsRoom self.old self.new }
        ensures no_more_places { (p : place_type.Place) → HasPlaceRoom self.new p
            → HasPlaceRoom self.old p ⊎ (p ≡ place) }
        ensures no_more_cells { (c : cell_type.NumberCell) → HasCellRoom self.new c
            → HasCellRoom self.old c ⊎ (c ≡ cell_at place number) }
        ensures succeeds { HasRoom self.old place number → IsOk result }
    {
        let cell = cell_of(&place, number);
        self.places.room(place)?;
        self.cells.room(cell)
    }

    /// Gives a device at a place a number. Can't run out of memory: there is room for it. The
    /// place has no number, and no device has the number in its channel subsystem and set.
    pub fn place(&mut self, place: Place, number: u16)
        requires room { HasRoom self.old place number }
        requires unnumbered { map.get self.old.numbers place ≡ None }
        requires free { device_at self.old.numbers (cell_at place number) ≡ None }
        ensures numbers { self.new.numbers ≡ map.insert self.old.numbers place number }
        ensures room { HasSameRoom self.new self.old }
    {
        // For the proof alone: a device number has 16 bits.
        let _device = place.device.number();
        let cell = cell_of(&place, number);
        let _ = self.places.put(&place, number);
        let _ = self.cells.put(&cell, place.device);
        set_bit(&mut self.words, bit_of(cell));
    }

    /// Takes the number of a device at a place back, if it has one. Can't run out of memory,
    /// and the room for it stays.
    pub fn free(&mut self, place: Place) -> Option<u16>
        ensures before { result ≡ map.get self.old.numbers place }
        ensures numbers { self.new.numbers ≡ map.remove self.old.numbers place }
        ensures room { HasSameRoom self.new self.old }
    {
        let number = self.places.take(&place)?;
        let cell = cell_of(&place, number);
        let _ = self.cells.take(&cell);
        clear_bit(&mut self.words, bit_of(cell));
        Some(number)
    }
}

/// The first number cell of a channel subsystem: number 0000 of set 0.
fn first_cell(css: Css) -> NumberCell
    ensures { result ≡ record { css = css; set = 0; number = 0 } }
{
    NumberCell {
        css,
        set: SetNo::FIRST,
        number: 0,
    }
}

/// The number cell that a number at a place takes.
pub fn cell_of(place: &Place, number: u16) -> NumberCell
    ensures { result ≡ cell_at place.now number }
{
    NumberCell {
        css: place.css,
        set: place.set,
        number,
    }
}

/// Which bit notes that a number is given away.
pub fn bit_of(cell: NumberCell) -> usize
    ensures value { result ≡ tied.bit_of cell.css cell.set cell.number }
    ensures css { cell.css < 6 }
    ensures set { cell.set < 4 }
    ensures number { cell.number < 65536 }
{
    (usize::from(cell.css.number()) * 4 + usize::from(cell.set.number())) * 65536
        + usize::from(cell.number)
}
