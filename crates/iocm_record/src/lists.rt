ghost use Rattle.std.specs.Prelude.{◌≡◌, ◌∷◌, [], None, IfOk};
ghost use Rattle.std.specs.Option.{option_copied};
ghost use Rattle.std.specs.Vec.{vec_items};

use crate::Carried;
use crate::carried::copy_carried;
use iocm_types::{List, Name, UnitNo};
use std::alloc::{AllocError, Allocator, Global};
use std::marker::Model;

/// The lists of a device: its control units in their order; the names of its candidates, ascending
/// with each once, where it lists them; and what its statement carries along. Most devices have one
/// control unit and nothing else, which is kept in place. Contracts see the lists.
#[derive(Drop)]
pub struct DeviceLists<A: Allocator = Global> {
    kept: Kept<A>,
}

/// How they are kept.
#[derive(Drop)]
enum Kept<A: Allocator> {
    /// One control unit, and nothing else.
    One([UnitNo; 1]),
    /// Any lists.
    Boxed(Box<AnyLists<A>, A>),
}

/// Any lists of a device.
#[derive(Drop)]
struct AnyLists<A: Allocator> {
    units: List<UnitNo, A>,
    candidates: Option<List<Name, A>>,
    carried: Vec<Carried<A>, A>,
}

impl<A: Allocator> Model for DeviceLists<A> {
    ghost use Rattle.iocm_record.specs.Lists.{Lists, lists_kept};

    ghost Value = { Lists };

    ghost view = { λ l. lists_kept l.kept };
}

impl<A: Allocator> DeviceLists<A> {
    ghost use Rattle.iocm_record.specs.Lists.{Lists};

    /// These lists. Answers the lack of memory alone, and not for one control unit and nothing else.
    pub fn new(
        alloc: A,
        units: Vec<UnitNo, A>,
        candidates: Option<List<Name, A>>,
        carried: Vec<Carried<A>, A>,
    ) -> Result<Self, AllocError>
        ensures { IfOk result
            (λ l. l ≡ record { units = units.items; candidates = candidates; carried = carried.items }) }
    {
        if candidates.is_none() && carried.is_empty() {
            if let [only] = units.as_slice() {
                return Ok(DeviceLists::of_one(*only));
            }
        }
        let any = AnyLists {
            units: List::from_vec(units),
            candidates,
            carried,
        };
        Ok(DeviceLists {
            kept: Kept::Boxed(Box::new(alloc, any)?),
        })
    }

    /// One control unit, and nothing else.
    fn of_one(unit: UnitNo) -> Self
        ensures { result ≡ record { units = unit ∷ []; candidates = None; carried = [] } }
    {
        DeviceLists {
            kept: Kept::One([unit]),
        }
    }

    /// The control units in their order.
    pub fn units(&self) -> &[UnitNo]
        ensures { result.now ≡ self.now.units }
    {
        match &self.kept {
            Kept::One(only) => only.as_slice(),
            Kept::Boxed(lists) => lists.units.as_slice(),
        }
    }

    /// The candidates by name, where they are listed.
    pub fn candidates(&self) -> Option<&List<Name, A>>
        ensures { option_copied result ≡ self.now.candidates }
    {
        match &self.kept {
            Kept::One(_) => None,
            Kept::Boxed(lists) => lists.candidates.as_ref(),
        }
    }

    /// What the statement carries along, in the order of the text.
    pub fn carried(&self) -> &[Carried<A>]
        ensures { result.now ≡ self.now.carried }
    {
        match &self.kept {
            Kept::One(_) => &[],
            Kept::Boxed(lists) => lists.carried.as_slice(),
        }
    }

    /// The same lists under another allocator. Answers the lack of memory alone, and not for one
    /// control unit and nothing else.
    pub fn copy_in<B: Allocator + Clone>(&self, alloc: B) -> Result<DeviceLists<B>, AllocError>
        ensures { IfOk result (λ copy. copy ≡ self.now) }
    {
        match &self.kept {
            Kept::One(only) => Ok(DeviceLists {
                kept: Kept::One(*only),
            }),
            Kept::Boxed(lists) => {
                let copy = copy_lists(lists, alloc.clone()?)?;
                Ok(DeviceLists {
                    kept: Kept::Boxed(Box::new(alloc, copy)?),
                })
            }
        }
    }
}

fn copy_lists<A: Allocator, B: Allocator + Clone>(
    lists: &AnyLists<A>,
    alloc: B,
) -> Result<AnyLists<B>, AllocError>
    ensures units { IfOk result (λ copy. copy.units ≡ lists.now.units) }
    ensures candidates { IfOk result (λ copy. copy.candidates ≡ lists.now.candidates) }
    ensures carried { IfOk result (λ copy. copy.carried.items ≡ lists.now.carried.items) }
{
    let candidates = match &lists.candidates {
        Some(names) => Some(names.copy_in(alloc.clone()?)?),
        None => None,
    };
    Ok(AnyLists {
        units: lists.units.copy_in(alloc.clone()?)?,
        candidates,
        carried: copy_carried(&lists.carried, alloc)?,
    })
}
