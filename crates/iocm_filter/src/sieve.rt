ghost use Rattle.std.specs.Prelude.{◌≡◌, ◌&&◌, ◌||◌, IfOk, OnOk};
ghost use Rattle.std.specs.FinMap.{entries};
ghost use Rattle.std.specs.Ordering.{eq_by_cmp};
ghost use Rattle.iocm_types.specs.Key.{key_cmp};
ghost use Rattle.iocm_types.specs.declared.key.Key as key_type;
ghost use Rattle.iocm_model.specs.Machine.Record.{key_of};
ghost use Rattle.iocm_table.specs.Slots.{rows};
ghost use Rattle.iocm_filter.specs.Sieves as meaning;
ghost use Rattle.iocm_filter.specs.Sieves.{has_key};
ghost use Rattle.iocm_filter.specs.Wanted.{found_among, is_sought};

use crate::Filters;
use iocm_config::Config;
use iocm_record::Record;
use iocm_table::Table;
use iocm_types::{DevNo, Image, Key, SetNo, SubId, View};
use std::alloc::{AllocError, Allocator, Global};
use std::marker::Model;

/// What is asked for, with what this depends on of a configuration: the keys of the images that have
/// a name that is asked for, and of the devices that are on such a control unit. Contracts see these.
#[derive(Drop)]
pub struct Sieve<'f> {
    filters: &'f Filters,
    keys: Table<Key, ()>,
}

impl<'f> Model for Sieve<'f> {
    ghost use Rattle.std.specs.Prelude.{refl};
    ghost use Rattle.std.specs.FinMap as map;
    ghost use Rattle.std.specs.Coded.{code_by, coded×, codes};
    ghost use Rattle.iocm_types.specs.Key.{key_cmp};
    ghost use Rattle.iocm_table.specs.Slots.{rows};
    ghost use Rattle.iocm_filter.specs.Sieves.{Keys, Sieve};
    ghost use Rattle.iocm_filter.specs.Wanted.{Wanted};

    ghost Value = { Sieve };

    ghost coded = { code_by (Wanted × Keys)
        (coded× (Prim.hlevel codes) (map.code (Prim.hlevel codes) (Prim.hlevel codes)))
        (λ s. (s.asked, s.keys)) (λ p. record { asked = p.0; keys = p.1 }) (λ _. refl) };

    ghost view = { λ s. record { asked = s.filters.now; keys = rows key_cmp s.keys } };
}

impl<'f> Sieve<'f> {
    /// That of a configuration. The time is that of a walk over its records.
    ///
    /// `AllocError` (M1): memory ran out.
    pub fn new<A: Allocator>(
        alloc: Global,
        filters: &'f Filters,
        config: &Config<A>,
    ) -> Result<Self, AllocError>
        ensures { IfOk result (λ s. meaning.IsSieveFor filters.entry.now config.now.records s) }
    {
        let keys = keys_of(alloc, filters, config)?;
        Ok(Sieve { filters, keys })
    }

    /// Whether an image passes.
    pub fn passes_image(&self, image: Image) -> bool
        ensures { result ≡ meaning.passes_image self.now image }
    {
        let key = Key::Image(image.css, image.mif);
        self.filters.wants_place(image) || self.keys.get(&key).is_some()
    }

    /// Whether a device of a subchannel set passes. The time is that of a search.
    pub fn passes_device(&self, set: SetNo, number: DevNo) -> bool
        ensures { result ≡ meaning.passes_device self.now set number }
    {
        let filters = self.filters;
        let key = Key::Device(set, number);
        filters.wants_number(set, number)
            && (filters.units.is_empty() || self.keys.get(&key).is_some())
    }

    /// Whether a subchannel with its view passes.
    pub fn passes(&self, subchannel: &SubId, view: &View) -> bool
        ensures { result ≡ meaning.passes self.now (subchannel.now, view.now) }
    {
        self.passes_image(subchannel.image)
            && self.passes_device(subchannel.set, view.device)
            && self.filters.wants_view(subchannel.image.css, view)
    }

    /// What is asked for.
    pub fn filters(&self) -> &Filters
        ensures { result.now ≡ self.now.asked }
    {
        self.filters
    }
}

/// The keys of the records that filters look for.
#[tactic(auto, using(crate::proofs::Keys::key_steps))]
fn keys_of<A: Allocator>(
    alloc: Global,
    filters: &Filters,
    config: &Config<A>,
) -> Result<Table<Key, ()>, AllocError>
    ensures { IfOk result (λ found. (key : key_type.Key)
        → has_key (rows key_cmp found) key ≡ found_among filters.now (entries config.now.records) key) }
{
    let mut keys = Table::new(alloc);
    for (_, entry) in config.walk() {
        put_key(&mut keys, filters, entry)?;
    }
    Ok(keys)
}

/// Puts the key of a record with others, if filters look for it.
#[tactic(auto, using(crate::proofs::Keys::with_key))]
fn put_key<A: Allocator>(
    keys: &mut Table<Key, ()>,
    filters: &Filters,
    entry: &Record<A>,
) -> Result<(), AllocError>
    ensures { OnOk result ((key : key_type.Key) → has_key (rows key_cmp keys.new) key
        ≡ (has_key (rows key_cmp keys.old) key
        || (is_sought filters.now entry.now && eq_by_cmp key_cmp key (key_of entry.now)))) }
{
    if filters.look_for(entry) {
        let key = entry.key();
        keys.room(key)?;
        let _before = keys.put(&key, ());
    }
    Ok(())
}
