ghost use Rattle.std.specs.Prelude.{◌≡◌, map, IfOk};
ghost use Rattle.iocm_model.specs.Machine.Numbering.{Numbering};
ghost use Rattle.iocm_numbers.specs.NumberChanges.{changes_between, change_from, noted_cells, WereBefore};

use crate::numbers::cell_of;
use crate::{NumberChange, Numbers};
use iocm_types::{DevNo, NumberCell, Place, first_in_order};
use std::alloc::{AllocError, Allocator};

impl<A: Allocator> Numbers<A> {
    /// The number cells that a change of the configuration changed, by channel subsystem, set and
    /// number, each with the device that had it and the one that has it now. The numbers are those
    /// after the change; the rows are those that it freed and gave. A number that was freed and
    /// given to another device is one change. The time is that of sorting the rows, and of one
    /// look-up for each.
    ///
    /// `AllocError` (M1): memory ran out.
    pub fn list_changes<B: Allocator + Copy>(
        &self,
        alloc: B,
        freed: &[(Place, u16)],
        given: &[(Place, u16)],
    ) -> Result<Vec<NumberChange, B>, AllocError>
        ensures { IfOk result (λ changes. (n : Numbering) → WereBefore n self.now.numbers freed.now given.now
            → changes.items ≡ changes_between n self.now.numbers) }
    {
        // For the proof alone: no number comes twice.
        self.are_apart();
        let noted = note_cells(alloc, freed, given)?;
        let holders = first_in_order(noted)?;
        self.changes_from(alloc, holders.as_slice())
    }

    /// Number cells, each with the device that had it and the one that has it now.
    fn changes_from<C: Allocator>(
        &self,
        alloc: C,
        holders: &[(NumberCell, Option<DevNo>)],
    ) -> Result<Vec<NumberChange, C>, AllocError>
        ensures { IfOk result (λ changes. changes.items ≡ map (change_from self.now.numbers) holders.now) }
    {
        let mut changes = Vec::with_capacity(alloc, holders.len())?;
        for row in holders {
            changes.push(NumberChange {
                cell: row.0,
                before: row.1,
                after: self.device_at(row.0),
            })?;
        }
        Ok(changes)
    }
}

/// The number cells of rows that were freed, each with the device that had it, and after them those
/// of rows that were given, as cells that no device had.
fn note_cells<B: Allocator>(
    alloc: B,
    freed: &[(Place, u16)],
    given: &[(Place, u16)],
) -> Result<Vec<(NumberCell, Option<DevNo>), B>, AllocError>
    ensures { IfOk result (λ noted. noted.items ≡ noted_cells freed.now given.now) }
{
    let mut noted = Vec::with_capacity(alloc, freed.len())?;
    for row in freed {
        noted.push((cell_of(&row.0, row.1), Some(row.0.device)))?;
    }
    for row in given {
        noted.push((cell_of(&row.0, row.1), None))?;
    }
    Ok(noted)
}
