ghost use Rattle.std.specs.Prelude.{◌≡◌, ◌<◌, ℕ, true, IfSome};
ghost use Rattle.std.specs.Ordering.{is_le};
ghost use Rattle.iocm_types.specs.declared.key.Key.TheVariants as key;
ghost use Rattle.iocm_types.specs.Key.{key_cmp};
ghost use Rattle.iocm_model.specs.Rules.EachRule as model;
ghost use Rattle.iocm_lookup.specs.Images as images;

use crate::kind::RecordKind;
use crate::wanted::{Wanted, is_any_wanted};
use iocm_config::Config;
use iocm_record::{Record, RecordBody};
use iocm_types::{Css, Key, Mif, Name};
use std::alloc::Allocator;

/// An image of a name in any channel subsystem.
#[derive(Drop)]
struct Named {
    name: Name,
}

impl<A: Allocator> Wanted<A> for Named {
    ghost use Rattle.std.specs.Prelude.{refl};
    ghost use Rattle.iocm_model.specs.Rules.EachRule.{is_image_named};
    ghost use Rattle.iocm_lookup.specs.OfKind.{only_images};

    ghost wants = { λ s c r. is_image_named s.name r };

    ghost fits = { λ s c. Unit {0} };

    ghost place = { 2 };

    ghost of_kind = { λ s c. only_images (is_image_named s.name)
        (λ _. refl) (λ _. refl) (λ _. refl) (λ _. refl) (λ _. refl) (λ _. refl) (λ _. refl) };

    fn kind(&self) -> RecordKind {
        RecordKind::Image
    }

    fn is_wanted(&self, _config: &Config<A>, entry: &Record<A>) -> bool {
        match entry.body() {
            RecordBody::Image(_, _, name) => self.name == *name,
            _ => false,
        }
    }
}

/// Whether a name is that of an image of a channel subsystem. The time is that of a search, and of a
/// walk over the images of the channel subsystem, 15 at the most.
pub fn is_image_in<A: Allocator>(config: &Config<A>, css: Css, name: Name) -> bool
    ensures { result ≡ model.is_image_in config.now.records css name }
{
    config.has_own_keys();
    for (key, entry) in config.walk_from(&before_images(css)) {
        if is_past_images(key, css) {
            return false;
        }
        if is_named_in(entry, css, name) {
            return true;
        }
    }
    false
}

/// A key that is not behind any image of a channel subsystem.
pub(crate) fn before_images(css: Css) -> Key
    ensures { (mif : ℕ) → is_le (key_cmp result (key.Image css mif)) ≡ true }
{
    match (subsystem_before(css), Mif::new(15)) {
        (Some(other), Some(last)) => Key::Image(other, last),
        _ => Key::Resource,
    }
}

/// The channel subsystem before this one, if there is one.
pub(crate) fn subsystem_before(css: Css) -> Option<Css>
    ensures { IfSome result (λ other. other < css) }
{
    let number = css.number();
    if number == 0 {
        return None;
    }
    Css::new(number - 1)
}

/// Whether a key is behind those of the images of a channel subsystem.
pub(crate) fn is_past_images(key: &Key, css: Css) -> bool
    ensures { result ≡ images.is_past_images css key.now }
{
    match key {
        Key::Id => false,
        Key::Resource => false,
        Key::Image(own, _) => css.number() < own.number(),
        _ => true,
    }
}

/// Whether a record is that of an image of a name in a channel subsystem.
fn is_named_in<A: Allocator>(entry: &Record<A>, css: Css, name: Name) -> bool
    ensures { result ≡ images.is_named_in css name entry.now }
{
    match entry.body() {
        RecordBody::Image(own, _, other) => *own == css && name == *other,
        _ => false,
    }
}

/// Whether a name is that of an image. The time is that of a walk over the images, 90 at the most.
pub fn is_image<A: Allocator>(config: &Config<A>, name: Name) -> bool
    ensures { result ≡ model.is_image config.now.records name }
{
    is_any_wanted(config, &Named { name })
}
