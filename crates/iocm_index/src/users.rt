ghost use Rattle.std.specs.Prelude.{◌≡◌, length};
ghost use Rattle.std.specs.Iterator.{at_most};
ghost use Rattle.std.specs.Map.Iter.{TakesFirst};
ghost use Rattle.std.specs.List.{list_any};
ghost use Rattle.std.specs.List.Sorted.{IsStrictlySortedBy};
ghost use Rattle.std.specs.Ordering.{eq_by_cmp};
ghost use Rattle.iocm_types.specs.Key.{key_cmp};
ghost use Rattle.iocm_types.specs.Naming.{naming_cmp};
ghost use Rattle.iocm_types.specs.declared.key.Key as key_type;
ghost use Rattle.iocm_types.specs.declared.key.Key.TheVariants as key;
ghost use Rattle.std.specs.FinMap.{entries};
ghost use Rattle.iocm_table.specs.Slots.{rows, rows_from};
ghost use Rattle.iocm_index.specs.Namings.{naming, is_linked, users_in, users_in_front};

use crate::Index;
use iocm_table::Rows;
use iocm_types::{Key, Named, Naming};
use std::alloc::Allocator;
use std::cmp::Ordering;
use std::marker::Model;

/// The keys of the records that name a thing, in order. Contracts see those that are left.
#[derive(Drop)]
pub struct Users<'a> {
    rows: Rows<'a, Naming, ()>,
    named: Named,
    has_ended: bool,
}

impl<'a> Model for Users<'a> {
    ghost use Rattle.std.specs.Prelude.{List, [], if◌then◌else◌};
    ghost use Rattle.iocm_types.specs.declared.key.Key.{Key};
    ghost use Rattle.iocm_index.specs.Namings.{users_in_front};

    ghost Value = { List Key };

    ghost view = { λ u. if u.has_ended then [] else users_in_front u.named u.rows };
}

impl<'a> Iterator for Users<'a> {
    type Item = Key;

    ghost next_gives = { TakesFirst (λ k. k) };

    ghost remaining = { λ s. at_most (length s) };

    fn next(&mut self) -> Option<Key> {
        if self.has_ended {
            return None;
        }
        if let Some((naming, _)) = self.rows.next() {
            if self.named.order(naming.named) == Ordering::Equal {
                return Some(naming.user);
            }
        }
        self.has_ended = true;
        None
    }
}

impl<'a> Users<'a> {
    /// The walk over rows that begin with those of a thing.
    fn over(rows: Rows<'a, Naming, ()>, named: Named) -> Users<'a>
        ensures { result ≡ users_in_front named rows.entry }
    {
        Users {
            rows,
            named,
            has_ended: false,
        }
    }
}

impl<A: Allocator> Index<A> {
    /// The keys of the records that name a thing, each once and in order. The time is that of one
    /// search, and in proportion to their number and to that of the places of unlinked namings
    /// among them.
    pub fn users_of(&self, named: Named) -> Users<'_>
        ensures users { result ≡ users_in named (rows naming_cmp self.now) }
        ensures named { (k : key_type.Key)
            → list_any (eq_by_cmp key_cmp k) result ≡ is_linked self.now (naming k named) }
        ensures rise { IsStrictlySortedBy key_cmp result }
    {
        let rows = self.from_first(&named);
        Users::over(rows, named)
    }

    /// The namings from the first that a thing can have on.
    fn from_first(&self, named: &Named) -> Rows<'_, Naming, ()>
        ensures { result ≡ rows_from naming_cmp (naming key.Id named.now) (entries (rows naming_cmp self.now)) }
    {
        let first = Naming {
            named: *named,
            user: Key::Id,
        };
        self.namings.walk_from(&first)
    }
}
