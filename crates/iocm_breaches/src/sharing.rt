ghost use Rattle.std.specs.Prelude.{◌≡◌};
ghost use Rattle.std.specs.List.{list_any};
ghost use Rattle.iocm_types.specs.Naming.{naming_cmp};
ghost use Rattle.iocm_table.specs.Slots.{rows};
ghost use Rattle.iocm_model.specs.Machine.Configuration.{lookup_of};
ghost use Rattle.iocm_model.specs.Machine.Record.{unit};
ghost use Rattle.iocm_model.specs.Rules.EachRule as model;
ghost use Rattle.iocm_record.specs.Meaning.{unit_of};
ghost use Rattle.iocm_lookup.specs.Indexed.{IsIndexOf};
ghost use Rattle.iocm_unit_rules.specs.Sharing.{clashes_on};

use iocm_config::Config;
use iocm_index::Index;
use iocm_lookup::{RecordKind, Wanted};
use iocm_record::{Record, RecordBody, UnitFields};
use iocm_types::CssPath;
use iocm_unit_rules::is_shared_on;
use std::alloc::Allocator;

/// V14: a unit with a smaller key shares a path on which both have the same link, has the same CUADD,
/// and has a range that overlaps one of it. The index is that of the configuration.
#[derive(Drop)]
pub struct AddressShared<'a, I: Allocator> {
    /// Who is on a path, whether the path is there or not.
    pub index: &'a Index<I>,
}

impl<'a, A: Allocator, I: Allocator> Wanted<A> for AddressShared<'a, I> {
    ghost use Rattle.std.specs.Prelude.{refl};
    ghost use Rattle.iocm_model.specs.Rules.EachRule.{breaks_v14};
    ghost use Rattle.iocm_lookup.specs.Indexed.{IsIndexOf};
    ghost use Rattle.iocm_lookup.specs.OfKind.{only_units};

    ghost wants = { λ s c r. breaks_v14 c r };

    ghost fits = { λ s c. IsIndexOf c s.index.now };

    ghost place = { 5 };

    ghost of_kind = { λ s c. only_units (breaks_v14 c)
        (λ _. refl) (λ _. refl) (λ _. refl) (λ _. refl) (λ _. refl) (λ _. refl) (λ _. refl) };

    fn kind(&self) -> RecordKind {
        RecordKind::Unit
    }

    fn is_wanted(&self, config: &Config<A>, entry: &Record<A>) -> bool {
        match entry.body() {
            RecordBody::Unit(fields) => is_address_shared(config, self.index, fields),
            _ => false,
        }
    }
}

/// Whether a unit breaks V14.
fn is_address_shared<A: Allocator, I: Allocator>(
    config: &Config<A>,
    index: &Index<I>,
    fields: &UnitFields<A>,
) -> bool
    requires { IsIndexOf config.now.records index.now }
    ensures { result ≡ model.breaks_v14 config.now.records (unit (unit_of fields.now)) }
{
    config.has_own_keys();
    is_shared_on_any(config, index, fields, fields.paths.as_slice())
}

/// Whether on one of these paths a unit before another answers to one of its addresses.
#[tactic(auto, using(iocm_types::proofs::Any::any_steps))]
fn is_shared_on_any<A: Allocator, I: Allocator>(
    config: &Config<A>,
    index: &Index<I>,
    fields: &UnitFields<A>,
    paths: &[CssPath],
) -> bool
    ensures { result ≡ list_any (clashes_on (lookup_of config.now.records) (rows naming_cmp index.now)
        (unit_of fields.now)) paths.now }
{
    for path in paths {
        if is_shared_on(config, index, fields, *path) {
            return true;
        }
    }
    false
}
