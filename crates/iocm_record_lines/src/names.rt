ghost use Rattle.std.specs.Prelude.{◌≡◌, ◌++◌, OnOk};
ghost use Rattle.serde_json.specs.Written.{compact_text};
ghost use Rattle.iocm_record_lines.specs.Records.{names_value};

use crate::put::put_comma;
use crate::quoting::put_quoted;
use iocm_types::Name;
use std::alloc::AllocError;

/// Puts a list of names of images. Answers the lack of memory alone.
pub fn put_names(text: &mut Vec<u8>, names: &[Name]) -> Result<(), AllocError>
    ensures { OnOk result (text.new.items ≡ text.old.items ++ compact_text (names_value names.now)) }
{
    text.push(b'[')?;
    let mut later = false;
    for name in names {
        put_comma(text, later)?;
        put_quoted(text, name.as_bytes())?;
        later = true;
    }
    text.push(b']')?;
    Ok(())
}
