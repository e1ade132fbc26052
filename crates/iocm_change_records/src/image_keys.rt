ghost use Rattle.std.specs.Prelude.{◌≡◌, map, IfOk};
ghost use Rattle.iocm_statements.specs.Unread.{Reads};
ghost use Rattle.iocm_values.specs.Value.{seen};
ghost use Rattle.iocm_change_records.specs.ResourceKeys as meaning;

use iocm_operands::mif_of;
use iocm_statements::Unread;
use iocm_types::{Css, Key, Mif};
use iocm_values::{CssItem, Value, by_css};
use std::alloc::{AllocError, Global};

/// Which image a DELETE is about.
#[derive(Clone, Copy)]
pub struct ImageKey {
    /// Its channel subsystem.
    pub css: Css,
    /// Its MIF image ID there.
    pub mif: Mif,
}

/// Whether an item is empty.
pub fn is_empty(value: Value) -> bool
    ensures { result ≡ meaning.is_empty (seen value.entry) }
{
    match value {
        Value::Word(text) => text.is_empty(),
        Value::List(_) => false,
    }
}

fn image_key_listed(css: Css, items: &[Value]) -> Option<ImageKey>
    ensures { result ≡ meaning.image_key_listed css (map seen items.now) }
{
    match items {
        [name, Value::Word(digit)] => {
            if is_empty(*name) {
                return None;
            }
            let mif = mif_of(digit)?;
            Some(ImageKey { css, mif })
        }
        _ => None,
    }
}

fn image_key(alloc: Global, css: Css, value: Value) -> Result<ImageKey, Unread>
    ensures { Reads (λ k. k) result (meaning.image_key css (seen value.entry)) }
{
    let items = value.items(alloc)?;
    match image_key_listed(css, &items) {
        Some(key) => Ok(key),
        None => Err(Unread::Malformed),
    }
}

impl CssItem for ImageKey {
    ghost use Rattle.std.specs.Prelude.{false};
    ghost use Rattle.iocm_change_records.specs.declared.image_keys.ImageKey.{ImageKey};
    ghost use Rattle.iocm_change_records.specs.ResourceKeys as meaning;

    ghost item = { meaning.image_key };

    ghost subsystem = { λ (k : ImageKey). k.css };

    ghost may_lack = { false };

    fn read(alloc: Global, css: Css, value: Value) -> Result<Self, Unread> {
        image_key(alloc, css, value)
    }

    fn css(&self) -> Css {
        self.css
    }

    fn may_lack_items() -> bool {
        false
    }
}

fn keys_in(alloc: Global, images: &[ImageKey]) -> Result<Vec<Key>, AllocError>
    ensures { IfOk result (λ keys. keys.items ≡ map meaning.key_of_image images.now) }
{
    let mut keys = Vec::new(alloc);
    for image in images {
        keys.push(Key::Image(image.css, image.mif))?;
    }
    Ok(keys)
}

/// The keys of PARTITION of DELETE RESOURCE, a list by channel subsystem of pairs whose second item
/// is an image's digit. The first isn't looked at, but it isn't empty.
pub fn image_keys(alloc: Global, value: Value) -> Result<Vec<Key>, Unread>
    ensures { Reads (λ v. v.items) result (meaning.image_keys (seen value.entry)) }
{
    let images: Vec<ImageKey> = by_css(alloc, value)?;
    Ok(keys_in(alloc, &images)?)
}
