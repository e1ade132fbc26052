//! Members of an object, each from its name on.
ghost use Rattle.std.specs.Prelude.{◌≡◌, ◌++◌, IfSome, OnOk};
ghost use Rattle.json.specs.Print.{quoted};
ghost use Rattle.serde_json.specs.Written.{compact_text};
ghost use Rattle.iocm_list_lines.specs.Members.{text_value};

use iocm_record_lines::{put_quoted, put_shown};
use iocm_types::Text;
use std::alloc::{AllocError, Global};
use std::fmt;

/// Puts a member whose value is shown.
pub(crate) fn put_member<D: fmt::Display + Drop>(
    alloc: Global,
    text: &mut Vec<u8>,
    name: &[u8],
    value: D,
) -> Result<(), AllocError>
    ensures { IfSome (D.output value)
        (λ shown. OnOk result (text.new.items ≡ text.old.items ++ (name.now ++ shown))) }
{
    text.extend_from_slice(name)?;
    put_shown(alloc, value, text)
}

/// Puts a member whose value is a word.
pub(crate) fn put_word(text: &mut Vec<u8>, name: &[u8], word: &[u8]) -> Result<(), AllocError>
    ensures { OnOk result (text.new.items ≡ text.old.items ++ (name.now ++ quoted word.now)) }
{
    text.extend_from_slice(name)?;
    put_quoted(text, word)
}

/// Puts a member whose value is a text that a statement carries along, or null.
pub(crate) fn put_carried(
    text: &mut Vec<u8>,
    name: &[u8],
    carried: &Option<Text>,
) -> Result<(), AllocError>
    ensures { OnOk result (text.new.items
        ≡ text.old.items ++ (name.now ++ compact_text (text_value carried.now))) }
{
    text.extend_from_slice(name)?;
    put_any_text(text, carried)
}

fn put_any_text(text: &mut Vec<u8>, carried: &Option<Text>) -> Result<(), AllocError>
    ensures { OnOk result (text.new.items ≡ text.old.items ++ compact_text (text_value carried.now)) }
{
    match carried {
        Some(carried) => put_quoted(text, carried.as_slice()),
        None => {
            text.extend_from_slice(b"null")?;
            Ok(())
        }
    }
}
