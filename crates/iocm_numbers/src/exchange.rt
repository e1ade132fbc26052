ghost use Rattle.std.specs.Prelude.{◌≡◌};
ghost use Rattle.iocm_numbers.specs.Exchange.{exchanged, without_rows};
ghost use Rattle.iocm_numbers.specs.Numbered.{HasSameRoom};
ghost use Rattle.iocm_numbers.specs.PutBack.{FitIn, HaveRoom};

use crate::Numbers;
use iocm_types::Place;
use std::alloc::Allocator;

impl<A: Allocator> Numbers<A> {
    /// Takes the numbers at the places of some rows back, and then gives the numbers of others to
    /// their places. Can't run out of memory: there is room for each that is given. Those that
    /// are given fit in once the others are taken back. With what a change of the configuration
    /// freed and gave it is taken back, or done again.
    pub fn exchange(&mut self, out: &[(Place, u16)], back: &[(Place, u16)])
        requires room { HaveRoom self.old back.now }
        requires fit { FitIn (without_rows self.old.numbers out.now) back.now }
        ensures numbers { self.new.numbers ≡ exchanged self.old.numbers out.now back.now }
        ensures room { HasSameRoom self.new self.old }
    {
        self.free_rows(out);
        self.place_all(back);
    }

    /// Takes the numbers at the places of these rows back.
    pub(crate) fn free_rows(&mut self, rows: &[(Place, u16)])
        ensures numbers { self.new.numbers ≡ without_rows self.old.numbers rows.now }
        ensures room { HasSameRoom self.new self.old }
    {
        for row in rows {
            let _ = self.free(row.0);
        }
    }
}
