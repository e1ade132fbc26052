ghost use Rattle.std.specs.Prelude.{◌≡◌};
ghost use Rattle.iocm_rules.specs.Found.{first_found};

use crate::Breach;
use iocm_types::{Key, Rule};

/// The breach of the first of these rules for which a record was found that breaks it.
pub fn first_of(found: &[(Rule, Option<Key>)]) -> Option<Breach>
    ensures { result ≡ first_found found.now }
{
    for (rule, key) in found {
        if let Some(key) = key {
            return Some(Breach {
                rule: *rule,
                key: *key,
            });
        }
    }
    None
}
