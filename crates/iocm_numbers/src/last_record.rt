ghost use Rattle.std.specs.Prelude.{◌≡◌};
ghost use Rattle.std.specs.Option.{option_copied};
ghost use Rattle.iocm_model.specs.Machine.Configuration.{lookup_of};

use iocm_config::Config;
use iocm_record::Record;
use iocm_types::Key;
use std::alloc::Allocator;
use std::marker::Model;

/// The records of a configuration, of which the one that was looked up last is kept: asked for once
/// more, it takes no search. Contracts see the configuration.
#[derive(Drop)]
pub(crate) struct LastRecord<'a, A: Allocator> {
    config: &'a Config<A>,
    /// The key that was looked up last, if one was.
    last: Option<Key>,
    /// Its record, if there is one.
    entry: Option<&'a Record<A>>,
}

impl<'a, A: Allocator> Model for LastRecord<'a, A> {
    ghost use Rattle.std.specs.Prelude.{◌≡◌, IfSome};
    ghost use Rattle.std.specs.Option.{option_copied};
    ghost use Rattle.std.specs.FinMap as map;
    ghost use Rattle.std.specs.Coded.{codes};
    ghost use Rattle.iocm_model.specs.Machine.Configuration.{Configuration, lookup_of};

    ghost Value = { Configuration };

    ghost coded = { map.code (Prim.hlevel codes) (Prim.hlevel codes) };

    ghost view = { λ w. w.config.now.records };

    ghost invariant = { λ w. IfSome w.last (λ key. option_copied w.entry ≡ lookup_of w.config.now.records key) };
}

impl<'a, A: Allocator> LastRecord<'a, A> {
    /// Those of a configuration, of which none was looked up.
    pub fn new(config: &'a Config<A>) -> Self
        ensures { result ≡ config.entry.now.records }
    {
        LastRecord {
            config,
            last: None,
            entry: None,
        }
    }

    /// The record of a key, if there is one.
    pub fn find(&mut self, key: &Key) -> Option<&'a Record<A>>
        ensures record { option_copied result ≡ lookup_of self.old key.now }
        ensures same { self.new ≡ self.old }
    {
        if self.last != Some(*key) {
            self.entry = self.config.get(key);
            self.last = Some(*key);
        }
        self.entry
    }
}
