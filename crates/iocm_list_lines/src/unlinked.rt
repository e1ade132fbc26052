//! Lists of channel paths.
ghost use Rattle.std.specs.Prelude.{◌≡◌, ◌++◌, OnOk};
ghost use Rattle.serde_json.specs.Written.{compact_text};
ghost use Rattle.iocm_list.specs.DeviceCells.{unlinked};
ghost use Rattle.iocm_record_lines.specs.Lists.{list_of};
ghost use Rattle.iocm_list_lines.specs.Members as meaning;

use iocm_record_lines::{PathObject, put_comma, put_shown};
use iocm_types::CssPath;
use iocm_words::LinkedPath;
use std::alloc::{AllocError, Global};

/// Puts a list of channel paths.
pub(crate) fn put_paths(
    alloc: Global,
    text: &mut Vec<u8>,
    paths: &[CssPath],
) -> Result<(), AllocError>
    ensures { OnOk result (text.new.items ≡ text.old.items
        ++ compact_text (list_of meaning.path_value paths.now)) }
{
    text.push(b'[')?;
    let mut later = false;
    for path in paths {
        put_comma(text, later)?;
        put_shown(alloc, PathObject(unlinked(path)), text)?;
        later = true;
    }
    text.push(b']')?;
    Ok(())
}

/// A channel path without a link.
fn unlinked(path: &CssPath) -> LinkedPath
    ensures { result ≡ unlinked path.now }
{
    let (css, path, link) = (path.css, path.path, None);
    LinkedPath { css, path, link }
}
