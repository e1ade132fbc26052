ghost use Rattle.std.specs.Prelude.{◌≡◌, [], ◌∷◌, fold, IfOk};
ghost use Rattle.std.specs.FinMap.{remove};
ghost use Rattle.iocm_numbers.specs.Numbered.{HasSameRoom};
ghost use Rattle.iocm_numbers.specs.PutBack as spec;
ghost use Rattle.iocm_numbers.specs.PutBack.{put_in, FitIn, HaveRoom};

use crate::Numbers;
use iocm_types::Place;
use std::alloc::{AllocError, Allocator};

impl<A: Allocator> Numbers<A> {
    /// The numbers that devices have at these places, in their order.
    pub(crate) fn numbers_at<B: Allocator>(
        &self,
        alloc: B,
        places: &[Place],
    ) -> Result<Vec<(Place, u16), B>, AllocError>
        ensures { IfOk result (λ rows. rows.items ≡ spec.numbers_at self.now.numbers places.now) }
    {
        let mut rows = Vec::new(alloc);
        for place in places {
            if let Some(number) = self.number_of(*place) {
                rows.push((*place, number))?;
            }
        }
        Ok(rows)
    }

    /// Takes the numbers at these places back.
    pub(crate) fn free_all(&mut self, places: &[Place])
        ensures numbers { self.new.numbers ≡ fold remove self.old.numbers places.now }
        ensures room { HasSameRoom self.new self.old }
    {
        for place in places {
            let _ = self.free(*place);
        }
    }

    /// Gives these numbers to their places, which have none. Can't run out of memory: there is
    /// room for each.
    pub(crate) fn place_all(&mut self, rows: &[(Place, u16)])
        requires room { HaveRoom self.old rows.now }
        requires fit { FitIn self.old.numbers rows.now }
        ensures numbers { self.new.numbers ≡ fold put_in self.old.numbers rows.now }
        ensures room { HasSameRoom self.new self.old }
    {
        for row in rows {
            self.place_row(row);
        }
    }

    /// Gives a number to its place.
    fn place_row(&mut self, row: &(Place, u16))
        requires room { HaveRoom self.old (row.now ∷ []) }
        requires fit { FitIn self.old.numbers (row.now ∷ []) }
        ensures numbers { self.new.numbers ≡ put_in self.old.numbers row.now }
        ensures room { HasSameRoom self.new self.old }
    {
        self.place(row.0, row.1);
    }
}
