ghost use Rattle.std.specs.Prelude.{◌≡◌};
ghost use Rattle.std.specs.Option.{option_copied};
ghost use Rattle.iocm_difference.specs.Walks.{next_key, record_at, rows_after};

use iocm_record::Record;
use iocm_table::Rows;
use iocm_types::Key;
use std::alloc::Allocator;
use std::marker::Model;

/// A walk over the records of a configuration that shows the key of the next one. Contracts see the
/// rows that are left.
#[derive(Drop)]
pub(crate) struct Walk<'a, A: Allocator> {
    next: Option<(&'a Key, &'a Record<A>)>,
    rows: Rows<'a, Key, Record<A>>,
}

impl<'a, A: Allocator> Model for Walk<'a, A> {
    ghost use Rattle.std.specs.Prelude.{List};
    ghost use Rattle.iocm_difference.specs.Walks.{Row};
    ghost use Rattle.iocm_difference.specs.Ahead.{rows_left};

    ghost Value = { List Row };

    ghost view = { λ w. rows_left w.next w.rows };
}

impl<'a, A: Allocator> Walk<'a, A> {
    /// The walk over these rows.
    pub(crate) fn new(mut rows: Rows<'a, Key, Record<A>>) -> Self
        ensures { result ≡ rows.entry }
    {
        let next = rows.next();
        Walk { next, rows }
    }

    /// The key of the next row.
    pub(crate) fn next_key(&self) -> Option<&'a Key>
        ensures { option_copied result ≡ next_key self.now }
    {
        match self.next {
            Some((key, _)) => Some(key),
            None => None,
        }
    }

    /// The record of the next row, if it is that of a key. Then the walk goes on.
    pub(crate) fn take_at(&mut self, key: &Key) -> Option<&'a Record<A>>
        ensures record { option_copied result ≡ record_at key.now self.old }
        ensures rows { self.new ≡ rows_after key.now self.old }
    {
        let (under, entry) = self.next?;
        if key.order(*under).is_ne() {
            return None;
        }
        self.next = self.rows.next();
        Some(entry)
    }
}
