ghost use Rattle.std.specs.Prelude.{◌≡◌};
ghost use Rattle.std.specs.Option.{option_copied};
ghost use Rattle.std.specs.FinMap as map;
ghost use Rattle.std.specs.Map.Iter.{TakesFirst};
ghost use Rattle.iocm_difference.specs.Met.{pair_met};
ghost use Rattle.iocm_difference.specs.Walks.{lesser_key, pairs_of};

use crate::walk::Walk;
use iocm_config::Config;
use iocm_record::Record;
use iocm_types::Key;
use std::alloc::Allocator;
use std::marker::Model;

/// A key that a walk over two configurations came to, with the record of each under it.
#[derive(Drop)]
pub struct Met<'a, A: Allocator, B: Allocator> {
    /// A key that one of them has, or both.
    pub key: &'a Key,
    /// The record of the old configuration, if it has the key.
    pub old: Option<&'a Record<A>>,
    /// The record of the new configuration, if it has the key.
    pub new: Option<&'a Record<B>>,
}

/// One walk over the records of two configurations, in the order of keys. Contracts see the keys
/// that are left, each with what each configuration has there.
#[derive(Drop)]
pub struct Merge<'a, A: Allocator, B: Allocator> {
    olds: Walk<'a, A>,
    news: Walk<'a, B>,
}

impl<'a, A: Allocator, B: Allocator> Model for Merge<'a, A, B> {
    ghost use Rattle.std.specs.Prelude.{List};
    ghost use Rattle.iocm_difference.specs.Walks.{Pair, pairs_of};

    ghost Value = { List Pair };

    ghost view = { λ m. pairs_of m.olds m.news };
}

impl<'a, A: Allocator, B: Allocator> Merge<'a, A, B> {
    /// The walk over two configurations, before the first key.
    pub fn new(old: &'a Config<A>, new: &'a Config<B>) -> Self
        ensures { result ≡ pairs_of (map.entries old.entry.now.records) (map.entries new.entry.now.records) }
    {
        Merge {
            olds: Walk::new(old.walk()),
            news: Walk::new(new.walk()),
        }
    }

    /// The next key with its records, if one is left.
    pub fn step(&mut self) -> Option<Met<'a, A, B>>
        ensures { TakesFirst pair_met self.old result self.new }
    {
        let key = lesser(self.olds.next_key(), self.news.next_key())?;
        let old = self.olds.take_at(key);
        let new = self.news.take_at(key);
        Some(Met { key, old, new })
    }
}

/// The lesser of two keys, if there is one.
fn lesser<'a>(first: Option<&'a Key>, second: Option<&'a Key>) -> Option<&'a Key>
    ensures { option_copied result ≡ lesser_key (option_copied first.entry) (option_copied second.entry) }
{
    match (first, second) {
        (Some(key), Some(other)) => Some(if key.order(*other).is_gt() {
            other
        } else {
            key
        }),
        (Some(key), None) => Some(key),
        (None, other) => other,
    }
}
