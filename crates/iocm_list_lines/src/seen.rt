//! Lists of images that see devices.
ghost use Rattle.std.specs.Prelude.{◌≡◌, ◌++◌, OnOk};
ghost use Rattle.serde_json.specs.Written.{compact_text};
ghost use Rattle.iocm_record_lines.specs.Lists.{list_of};
ghost use Rattle.iocm_list_lines.specs.Devices as meaning;

use crate::members::{put_member, put_word};
use crate::texts::ImageText;
use iocm_record_lines::put_comma;
use iocm_sight::SeenBy;
use std::alloc::{AllocError, Global};

/// Puts a list of images that see devices.
pub(crate) fn put_images(
    alloc: Global,
    text: &mut Vec<u8>,
    images: &[SeenBy],
) -> Result<(), AllocError>
    ensures { OnOk result (text.new.items ≡ text.old.items
        ++ compact_text (list_of meaning.seen_value images.now)) }
{
    text.push(b'[')?;
    let mut later = false;
    for seen in images {
        put_comma(text, later)?;
        put_seen(alloc, text, seen)?;
        later = true;
    }
    text.push(b']')?;
    Ok(())
}

/// Puts an image that sees devices, with how many paths it has to them.
fn put_seen(alloc: Global, text: &mut Vec<u8>, seen: &SeenBy) -> Result<(), AllocError>
    ensures { OnOk result (text.new.items ≡ text.old.items ++ compact_text (meaning.seen_value seen.now)) }
{
    put_member(alloc, text, b"{\"image\":", ImageText(seen.image))?;
    put_member(alloc, text, b",\"installed\":", seen.installed)?;
    put_word(text, b",\"name\":", seen.name.as_bytes())?;
    put_member(alloc, text, b",\"online\":", seen.online)?;
    text.push(b'}')?;
    Ok(())
}
