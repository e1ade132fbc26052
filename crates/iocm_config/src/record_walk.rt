ghost use Rattle.std.specs.Prelude.{◌≡◌, IfSome, Some};
ghost use Rattle.std.specs.Option.{option_copied};
ghost use Rattle.iocm_model.specs.Machine.Configuration.{lookup_of};

use crate::config::Config;
use iocm_record::Record;
use iocm_table::Rows;
use iocm_types::Key;
use std::alloc::Allocator;
use std::marker::Model;

/// The records of a configuration, found one after the other: the one after the last is found
/// without a search. Contracts see the configuration.
#[derive(Drop)]
pub struct RecordWalk<'a, A: Allocator> {
    config: &'a Config<A>,
    /// The records after the last one, where the next one is sought first.
    rows: Rows<'a, Key, Record<A>>,
}

impl<'a, A: Allocator> Model for RecordWalk<'a, A> {
    ghost use Rattle.std.specs.FinMap as map;
    ghost use Rattle.std.specs.Coded.{codes};
    ghost use Rattle.iocm_model.specs.Machine.Configuration.{Configuration};
    ghost use Rattle.iocm_config.specs.Walked.{AreOf};

    ghost Value = { Configuration };

    ghost coded = { map.code (Prim.hlevel codes) (Prim.hlevel codes) };

    ghost view = { λ w. w.config.now.records };

    ghost invariant = { λ w. AreOf w.config.now.records w.rows };
}

impl<'a, A: Allocator> RecordWalk<'a, A> {
    /// The records of a configuration, before the first.
    pub fn new(config: &'a Config<A>) -> Self
        ensures { result ≡ config.entry.now.records }
    {
        RecordWalk {
            config,
            rows: config.walk_from(&Key::Id),
        }
    }

    /// The record of a key, if there is one. The time is that of a search, but for the record after
    /// the last one.
    pub fn find(&mut self, key: &Key) -> Option<&'a Record<A>>
        ensures record { option_copied result ≡ lookup_of self.old key.now }
        ensures same { self.new ≡ self.old }
    {
        if let Some(entry) = self.next_under(key) {
            return Some(entry);
        }
        self.rows = self.config.walk_from(key);
        if let Some(entry) = self.next_under(key) {
            return Some(entry);
        }
        self.config.get(key)
    }

    /// The next record, if it is that of a key.
    fn next_under(&mut self, key: &Key) -> Option<&'a Record<A>>
        ensures record { IfSome result (λ entry. lookup_of self.old key.now ≡ Some entry.now) }
        ensures same { self.new ≡ self.old }
    {
        let (under, entry) = self.rows.next()?;
        if *under == *key { Some(entry) } else { None }
    }
}
