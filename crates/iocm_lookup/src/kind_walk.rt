ghost use Rattle.std.specs.Prelude.{◌≡◌, ◌<◌, ◌^◌, length};
ghost use Rattle.std.specs.Iterator.{at_most};
ghost use Rattle.std.specs.Map.Iter.{TakesFirst};
ghost use Rattle.iocm_model.specs.Machine.Configuration.{records_of};
ghost use Rattle.iocm_lookup.specs.Kinds as kinds;

use crate::kind::RecordKind;
use iocm_config::Config;
use iocm_record::Record;
use iocm_table::Rows;
use iocm_types::Key;
use std::alloc::Allocator;
use std::marker::Model;

/// A walk over the records of one kind, in the order of keys. Contracts see the records that are
/// left.
#[derive(Drop)]
pub struct KindWalk<'a, A: Allocator> {
    rows: Rows<'a, Key, Record<A>>,
    kind: RecordKind,
}

impl<'a, A: Allocator> Model for KindWalk<'a, A> {
    ghost use Rattle.std.specs.Prelude.{List};
    ghost use Rattle.iocm_model.specs.Machine.Record.{Rec};
    ghost use Rattle.iocm_lookup.specs.Kinds.{place_of, of_kind};
    ghost use Rattle.iocm_lookup.specs.Entries.{in_entries, AreInOrder};

    ghost Value = { List Rec };

    ghost view = { λ w. of_kind (place_of w.kind) (in_entries w.rows) };

    ghost invariant = { λ w. AreInOrder w.rows };
}

impl<'a, A: Allocator> Iterator for KindWalk<'a, A> {
    type Item = &'a Record<A>;

    ghost next_gives = { TakesFirst (λ r. r.now) };

    ghost remaining = { λ s. at_most (length s) };

    fn next(&mut self) -> Option<&'a Record<A>> {
        while let Some((key, entry)) = self.rows.next() {
            if self.kind.is_past(key) {
                return None;
            }
            if self.kind.is_of(key) {
                return Some(entry);
            }
        }
        None
    }
}

/// The records of one kind, in the order of keys. The time is that of a search, and of a walk over
/// them.
pub fn records_of_kind<A: Allocator>(config: &Config<A>, kind: RecordKind) -> KindWalk<'_, A>
    ensures records { result ≡ kinds.of_kind (kinds.place_of kind) (records_of config.now.records) }
    ensures fits { length result < 2 ^ 63 }
{
    config.has_own_keys();
    KindWalk {
        rows: config.walk_from(&kind.first()),
        kind,
    }
}
