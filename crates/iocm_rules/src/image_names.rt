use iocm_config::Config;
use iocm_lookup::{RecordKind, Wanted, is_any_wanted};
use iocm_record::{Record, RecordBody};
use iocm_types::{Key, Name};
use std::alloc::Allocator;

/// V1: an image whose name an image with a smaller key has. So a name is that of one image at the
/// most.
#[derive(Drop)]
pub struct NameTwice;

impl<A: Allocator> Wanted<A> for NameTwice {
    ghost use Rattle.std.specs.Prelude.{refl};
    ghost use Rattle.iocm_model.specs.Rules.EachRule.{breaks_v1};
    ghost use Rattle.iocm_lookup.specs.OfKind.{only_images};

    ghost wants = { λ s c r. breaks_v1 c r };

    ghost fits = { λ s c. Unit {0} };

    ghost place = { 2 };

    ghost of_kind = { λ s c. only_images (breaks_v1 c)
        (λ _. refl) (λ _. refl) (λ _. refl) (λ _. refl) (λ _. refl) (λ _. refl) (λ _. refl) };

    fn kind(&self) -> RecordKind {
        RecordKind::Image
    }

    fn is_wanted(&self, config: &Config<A>, entry: &Record<A>) -> bool {
        match entry.body() {
            RecordBody::Image(css, mif, name) => {
                let before = NamedBefore {
                    key: Key::Image(*css, *mif),
                    name: *name,
                };
                is_any_wanted(config, &before)
            }
            _ => false,
        }
    }
}

/// An image of a name, before a key.
#[derive(Drop)]
struct NamedBefore {
    key: Key,
    name: Name,
}

impl<A: Allocator> Wanted<A> for NamedBefore {
    ghost use Rattle.std.specs.Prelude.{refl};
    ghost use Rattle.iocm_lookup.specs.OfKind.{only_images};
    ghost use Rattle.iocm_rules.specs.ImageNames.{is_named_before};

    ghost wants = { λ s c r. is_named_before s.key s.name r };

    ghost fits = { λ s c. Unit {0} };

    ghost place = { 2 };

    ghost of_kind = { λ s c. only_images (is_named_before s.key s.name)
        (λ _. refl) (λ _. refl) (λ _. refl) (λ _. refl) (λ _. refl) (λ _. refl) (λ _. refl) };

    fn kind(&self) -> RecordKind {
        RecordKind::Image
    }

    fn is_wanted(&self, _config: &Config<A>, entry: &Record<A>) -> bool {
        match entry.body() {
            RecordBody::Image(css, mif, name) => {
                Key::Image(*css, *mif).order(self.key).is_lt() && self.name == *name
            }
            _ => false,
        }
    }
}
