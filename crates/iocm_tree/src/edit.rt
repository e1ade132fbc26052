ghost use Rattle.std.specs.Prelude.{◌≡◌, IfOk};
ghost use Rattle.std.specs.Map.{keys_of};
ghost use Rattle.std.specs.Option.{option_copied};
ghost use Rattle.std.specs.FinMap as map;
ghost use Rattle.iocm_model.specs.Change.Edit as edits;
ghost use Rattle.iocm_tree.specs.Carried.{action_of, AreInOrder, bare, carried_of, HasOrder, verb_of};

use crate::{Action, Verb};
use iocm_record::Record;
use iocm_types::{Key, Live, Place, SubId};
use std::alloc::{AllocError, Allocator, Global};
use std::marker::Model;

/// What an edit is made of, with its memory.
#[derive(Drop)]
pub struct Parts<A: Allocator = Global> {
    /// What it does with one record.
    pub action: Action<A>,
    /// The places that come along, each with its subchannel number, 0000 to FFFF.
    pub places: Vec<(Place, u16), A>,
    /// The live records that come along, in the order of subchannels, each subchannel once.
    pub kept: Vec<(SubId, Live), A>,
    /// Room for the way back: the places whose subchannel numbers it frees, each with its number.
    pub frees: Vec<(Place, u16), A>,
    /// Room for the way back: a row for each subchannel that it alters and finds with a live
    /// record, in the order of subchannels. What stands in a row's live record doesn't count: it is
    /// overwritten when the edit is performed.
    pub meets: Vec<(SubId, Live), A>,
}

/// One edit of a machine's configuration: its action, the subchannel numbers and the live records
/// that come along, and room for its way back, which is filled without memory when it is performed.
/// An edit made by hand has no room. Contracts see it as the model's edit, with the numbers that it
/// frees and the subchannels whose live records it has room for, whatever its allocator. The room
/// is own.
pub struct Edit<A: Allocator = Global> {
    parts: Parts<A>,
}

/// Written by hand, so that how its parts are let go is proved here alone, and not in each crate
/// that lets an edit go.
impl<A: Allocator> Drop for Edit<A> {
    fn drop(self) {
        let Edit { parts } = self;
        drop(parts);
    }
}

impl<A: Allocator> Model for Edit<A> {
    ghost use Rattle.std.specs.Prelude.{ℕ, List, refl};
    ghost use Rattle.std.specs.Coded.{code_by, coded×, coded_list, coded_ℕ, codes};
    ghost use Rattle.std.specs.FinMap as map;
    ghost use Rattle.iocm_types.specs.declared.place.Place.{Place};
    ghost use Rattle.iocm_types.specs.declared.sub_id.SubId.{SubId};
    ghost use Rattle.iocm_model.specs.Change.Edit as edits;
    ghost use Rattle.iocm_model.specs.Operation.State.{Lives};
    ghost use Rattle.iocm_tree.specs.Carried.{Carried, carried_of, HasOrder};

    ghost Value = { Carried };

    ghost coded = { code_by (edits.Action × (List (Place × ℕ) × (Lives × (List (Place × ℕ) × List SubId))))
        (coded× (Prim.hlevel codes) (coded× (coded_list (Prim.hlevel codes))
        (coded× (map.code (Prim.hlevel codes) (Prim.hlevel codes))
        (coded× (coded_list (Prim.hlevel codes)) (coded_list (Prim.hlevel codes))))))
        (λ c. (c.edit.action, (c.edit.places, (c.edit.lives, (c.frees, c.meets)))))
        (λ p. record {
          edit = record { action = p.0; places = p.1.0; lives = p.1.1.0 };
          frees = p.1.1.1.0;
          meets = p.1.1.1.1;
        })
        (λ _. refl) };

    ghost view = { λ e. carried_of e.parts };

    ghost invariant = { λ e. HasOrder e.parts };
}

impl<A: Allocator + Copy> Edit<A> {
    /// The edit that adds a record. Nothing comes along, and it has no room for its way back. Can't
    /// run out of memory.
    pub fn add(alloc: A, entry: Record<A>) -> Self
        ensures { result ≡ bare (edits.add entry) }
    {
        Edit {
            parts: bare_parts(alloc, Action::Add(entry)),
        }
    }

    /// The edit that deletes the record of a key. Nothing comes along, and it has no room for its
    /// way back. Can't run out of memory.
    pub fn delete(alloc: A, key: Key) -> Self
        ensures { result ≡ bare (edits.delete key) }
    {
        Edit {
            parts: bare_parts(alloc, Action::Delete(key)),
        }
    }

    /// The edit that replaces the record of a key. Nothing comes along, and it has no room for its
    /// way back. Can't run out of memory.
    pub fn modify(alloc: A, entry: Record<A>) -> Self
        ensures { result ≡ bare (edits.modify entry) }
    {
        Edit {
            parts: bare_parts(alloc, Action::Modify(entry)),
        }
    }
}

impl<A: Allocator> Edit<A> {
    /// The edit of these parts, whose live records and whose room for them stand in the order of
    /// subchannels.
    pub fn from_parts(parts: Parts<A>) -> Self
        requires { HasOrder parts }
        ensures { result ≡ carried_of parts }
    {
        Edit { parts }
    }

    /// Its parts with their memory.
    pub fn into_parts(self) -> Parts<A>
        ensures value { carried_of result ≡ self }
        ensures order { HasOrder result }
    {
        let Edit { parts: all } = self;
        all
    }

    /// The key of the record that it adds, deletes or modifies.
    pub fn key(&self) -> Key
        ensures { result ≡ edits.action_key self.now.edit.action }
    {
        self.parts.action.key()
    }

    /// Whether it adds, deletes or modifies.
    pub fn verb(&self) -> Verb
        ensures { result ≡ verb_of self.now.edit.action }
    {
        self.parts.action.verb()
    }

    /// The record that stands under its key afterwards; none after a deletion.
    pub fn after(&self) -> Option<&Record<A>>
        ensures { option_copied result ≡ edits.record_after self.now.edit.action }
    {
        self.parts.action.after()
    }

    /// The places that come along, each with its subchannel number.
    pub fn places(&self) -> &[(Place, u16)]
        ensures { result.now ≡ self.now.edit.places }
    {
        self.parts.places.as_slice()
    }

    /// The live records that come along, in the order of subchannels.
    pub fn kept(&self) -> &[(SubId, Live)]
        ensures { result.now ≡ map.entries self.now.edit.lives }
    {
        self.parts.kept.as_slice()
    }

    /// The places whose subchannel numbers performing it frees, each with its number, so far as it
    /// has room for them.
    pub fn frees(&self) -> &[(Place, u16)]
        ensures { result.now ≡ self.now.frees }
    {
        self.parts.frees.as_slice()
    }

    /// A row for each subchannel whose live record it has room for, in the order of subchannels.
    /// The live records in the rows don't count.
    pub fn meets(&self) -> &[(SubId, Live)]
        ensures subchannels { keys_of result.now ≡ self.now.meets }
        ensures order { AreInOrder result.now }
    {
        self.parts.meets.as_slice()
    }

    /// Overwrites the live records that come along by others of the same subchannels. Can't run
    /// out of memory.
    pub fn set_kept(&mut self, rows: &[(SubId, Live)])
        requires { keys_of rows.now ≡ map.keys self.old.edit.lives }
        ensures lives { map.entries self.new.edit.lives ≡ rows.now }
        ensures action { self.new.edit.action ≡ self.old.edit.action }
        ensures places { self.new.edit.places ≡ self.old.edit.places }
        ensures frees { self.new.frees ≡ self.old.frees }
        ensures meets { self.new.meets ≡ self.old.meets }
    {
        self.parts.kept.copy_from_slice(rows);
    }

    /// An equal edit under another allocator, with the same room for its way back.
    ///
    /// `AllocError` (M1): memory ran out.
    pub fn copy_in<B: Allocator + Clone>(&self, alloc: B) -> Result<Edit<B>, AllocError>
        ensures { IfOk result (λ copy. copy ≡ self.now) }
    {
        Ok(Edit {
            parts: self.parts.copy_in(alloc)?,
        })
    }
}

impl<A: Allocator> Parts<A> {
    /// The same parts under another allocator. Answers the lack of memory alone.
    fn copy_in<B: Allocator + Clone>(&self, alloc: B) -> Result<Parts<B>, AllocError>
        requires { HasOrder self.now }
        ensures value { IfOk result (λ copy. carried_of copy ≡ carried_of self.now) }
        ensures order { IfOk result (λ copy. HasOrder copy) }
    {
        let places = copy_rows(&self.places, &alloc)?;
        let kept = copy_rows(&self.kept, &alloc)?;
        let frees = copy_rows(&self.frees, &alloc)?;
        let meets = copy_rows(&self.meets, &alloc)?;
        let action = self.action.copy_in(alloc)?;
        Ok(Parts {
            action,
            places,
            kept,
            frees,
            meets,
        })
    }
}

/// The same rows under another allocator. Answers the lack of memory alone.
fn copy_rows<T: Copy, B: Allocator + Clone>(rows: &[T], alloc: &B) -> Result<Vec<T, B>, AllocError>
    ensures { IfOk result (λ copies. copies.items ≡ rows.now) }
{
    Vec::from_slice(alloc.clone()?, rows)
}

/// The parts of an edit with which nothing comes along, and which has no room for its way back.
fn bare_parts<A: Allocator + Copy>(alloc: A, action: Action<A>) -> Parts<A>
    ensures value { carried_of result ≡ bare (action_of action) }
    ensures order { HasOrder result }
{
    Parts {
        action,
        places: Vec::new(alloc),
        kept: Vec::new(alloc),
        frees: Vec::new(alloc),
        meets: Vec::new(alloc),
    }
}
