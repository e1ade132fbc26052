ghost use Rattle.std.specs.Prelude.{◌≡◌, Option, None, Some};
ghost use Rattle.std.specs.List.{list_all};
ghost use Rattle.std.specs.Option.{option_map};
ghost use Rattle.std.specs.Result.{result_err};
ghost use Rattle.iocm_types.specs.declared.refused.At.TheVariants as at;
ghost use Rattle.iocm_model.specs.Rules.FirstBreach.{Breach, first_breach};
ghost use Rattle.iocm_rules.specs.Near.{is_near_key};
ghost use Rattle.iocm_activate.specs.Walked.{WereKept};

use crate::log::Log;
use iocm_plant::Plant;
use iocm_rules::{Breach, check, check_near, near_edits_keep_the_rest};
use iocm_types::{At, Key, Refused};

/// Whether the rules are kept where a node ends. The answer is the first breach of them, at that
/// node, if there is one.
pub fn broken(plant: &Plant, log: &mut Log, node: u64) -> Option<Refused>
    requires kept { WereKept log.old plant.now.state }
    ensures value { result ≡ option_map (λ (b : Breach). record { rule = b.rule; node = Some node; at = at.Key b.key })
        (first_breach plant.now.state.config plant.now.state.numbers) }
    ensures done { log.new.done ≡ log.old.done }
    ensures keys { log.new.keys ≡ log.old.keys }
    ensures kept { WereKept log.new plant.now.state }
{
    // For the proof alone: the state is sound.
    plant.is_sound();
    match first_broken(plant, log) {
        Ok(()) => {
            log.kept = log.keys.len();
            None
        }
        Err(breach) => Some(Refused::about(breach.rule, At::Key(breach.key)).at_node(node)),
    }
}

/// The first breach of the rules. Where only devices and online records were changed since the
/// rules held, all else is passed over.
pub fn first_broken(plant: &Plant, log: &Log) -> Result<(), Breach>
    requires kept { WereKept log.now plant.now.state }
    ensures { result_err result ≡ first_breach plant.now.state.config plant.now.state.numbers }
{
    // For the proof alone: what edits of devices and of online records leave as it was.
    near_edits_keep_the_rest();
    let keys = &log.keys[log.kept..];
    if are_near(keys) {
        check_near(plant.config(), plant.numbers(), plant.index(), keys)
    } else {
        check(plant.config(), plant.numbers(), plant.index())
    }
}

/// Whether each of these is the key of a device, or of an online record.
fn are_near(keys: &[Key]) -> bool
    ensures { result ≡ list_all is_near_key keys.now }
{
    keys.iter().all(is_near)
}

/// Whether this is the key of a device, or of an online record.
fn is_near(key: &Key) -> bool
    ensures { result ≡ is_near_key key.now }
{
    matches!(key, Key::Device(..) | Key::Online(..))
}
