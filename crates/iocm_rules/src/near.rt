ghost use Rattle.std.specs.Prelude.{◌≡◌};
ghost use Rattle.std.specs.Result.{result_err};
ghost use Rattle.iocm_model.specs.Rules.FirstBreach.{first_breach};
ghost use Rattle.iocm_lookup.specs.Indexed.{IsIndexOf};
ghost use Rattle.iocm_rules.specs.Near.{KeptBut};

use crate::Breach;
use crate::found::first_of;
use crate::online_among::first_wrong_online_among;
use iocm_config::Config;
use iocm_device_rules::{first_address_twice_among, first_wrong_among};
use iocm_index::Index;
use iocm_numbers::Numbers;
use iocm_types::{Key, Rule};
use std::alloc::Allocator;

/// The first breach of the rules V1 to V14, as `check` answers it, where since the rules held only
/// records at these keys were added, deleted or modified, all of them devices or online records,
/// and the numbers followed. The keys come in any order, also several times, and one may have no
/// record any more. It takes no memory. Its time is about in proportion to the keys and to what is
/// on the same units and paths, whatever else the configuration has.
pub fn check_near<A: Allocator, N: Allocator, I: Allocator>(
    config: &Config<A>,
    numbers: &Numbers<N>,
    index: &Index<I>,
    keys: &[Key],
) -> Result<(), Breach>
    requires index { IsIndexOf config.now.records index.now }
    requires near { KeptBut keys.now config.now.records numbers.now.numbers }
    ensures { result_err result ≡ first_breach config.now.records numbers.now.numbers }
{
    config.has_own_keys();
    let wrong = first_wrong_among(config, numbers, keys);
    let first = first_of(&[
        (Rule::V4, first_wrong_online_among(config, index, keys)),
        (Rule::V8, wrong.units),
        (Rule::V9, wrong.address),
        (Rule::V10, first_address_twice_among(config, index, keys)),
        (Rule::V11, wrong.path_list),
        (Rule::V12, wrong.candidates),
        (Rule::V13, wrong.number),
    ]);
    match first {
        Some(breach) => Err(breach),
        None => Ok(()),
    }
}
