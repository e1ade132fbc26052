ghost use Rattle.std.specs.Prelude.{◌≡◌, ℕ, ◌&&◌, Bool, Option, false, get_or};
ghost use Rattle.std.specs.Option.{option_copied, option_map_or};
ghost use Rattle.iocm_types.specs.Naming.{naming_cmp};
ghost use Rattle.iocm_table.specs.Slots.{rows};
ghost use Rattle.iocm_model.specs.Machine.Record.{Rec};
ghost use Rattle.iocm_model.specs.Machine.Configuration.{Configuration, lookup_of};
ghost use Rattle.iocm_lookup.specs.Repeats as repeats;

use iocm_config::{Config, RecordWalk};
use iocm_index::Index;
use iocm_record::Record;
use iocm_types::{Key, Named};
use std::alloc::Allocator;

/// An address that the users of a thing have on it, as devices have on a unit. Of those whose
/// address a user before them has, some are looked for.
pub trait Addressed<A: Allocator> {
    /// The address of a record, if it has one.
    ghost address_of: { Self → Rec → Option ℕ };

    /// Which records are looked for.
    ghost wants: { Self → Configuration → Rec → Bool };

    /// The address of a record; of one that has none, none.
    fn address(&self, entry: &Record<A>) -> Option<u8>
        ensures { result ≡ address_of self.now entry.now };

    /// Whether a record whose address one before it has is looked for.
    fn is_wanted(&self, config: &Config<A>, entry: &Record<A>) -> bool
        ensures { result ≡ wants self.now config.now.records entry.now };
}

/// Of the users of a thing, in order, the first that is looked for and has the address of one
/// before it. The time is that of one look at each user, without a search where their records stand
/// side by side. Whether one is looked for is asked only where its address was met.
pub fn first_repeated<A: Allocator, I: Allocator, D: Addressed<A>>(
    config: &Config<A>,
    index: &Index<I>,
    thing: Named,
    addressed: &D,
) -> Option<Key>
    ensures { result ≡ repeats.repeated_on (D.address_of addressed.now)
        (D.wants addressed.now config.now.records)
        (lookup_of config.now.records) (rows naming_cmp index.now) thing }
{
    let mut records = RecordWalk::new(config);
    let mut met = [false; 256];
    for user in index.users_of(thing) {
        let found = records.find(&user);
        if is_repeated(config, addressed, &mut met, found) {
            return Some(user);
        }
    }
    None
}

/// Whether a user, of which this is the record, is looked for and has an address that was met. Its
/// address is met from now on.
fn is_repeated<A: Allocator, D: Addressed<A>>(
    config: &Config<A>,
    addressed: &D,
    met: &mut [bool; 256],
    found: Option<&Record<A>>,
) -> bool
    ensures repeated { result ≡ (repeats.is_met (λ a. get_or met.old a false)
        (repeats.address_in (D.address_of addressed.now) (option_copied found.entry))
        && option_map_or (D.wants addressed.now config.now.records) (option_copied found.entry) false) }
    ensures noted { (b : ℕ) → get_or met.new b false ≡ repeats.met_with
        (repeats.address_in (D.address_of addressed.now) (option_copied found.entry))
        (λ a. get_or met.old a false) b }
{
    match found {
        Some(entry) => meets(met, addressed.address(entry)) && addressed.is_wanted(config, entry),
        None => false,
    }
}

/// Notes that an address was met, and answers whether it was before.
fn meets(met: &mut [bool; 256], address: Option<u8>) -> bool
    ensures met { result ≡ repeats.is_met (λ a. get_or met.old a false) address }
    ensures noted { (b : ℕ) → get_or met.new b false ≡ repeats.met_with address (λ a. get_or met.old a false) b }
{
    let Some(address) = address else {
        return false;
    };
    let place = usize::from(address);
    let was_met = met[place];
    met[place] = true;
    was_met
}
