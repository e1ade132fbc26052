ghost use Rattle.std.specs.Prelude.{◌≡◌, ◌++◌, IfOk, OnOk};
ghost use Rattle.json.specs.Print.{quoted};
ghost use Rattle.iocm_types.specs.Key.{key_text};
ghost use Rattle.iocm_lines.specs.Lines as lines;
ghost use Rattle.iocm_record_lines.specs.Records as meaning;

use crate::quoting::put_quoted;
use crate::record::put_record;
use iocm_config::Config;
use iocm_record::Record;
use iocm_types::Key;
use std::alloc::{AllocError, Allocator, Global};

/// A line for each record of a configuration, in the order of keys, pairs of a channel path and an
/// image that are online too. Answers the lack of memory alone.
pub fn record_lines<A: Allocator>(alloc: Global, config: &Config<A>) -> Result<Vec<u8>, AllocError>
    ensures { IfOk result (λ text. text.items ≡ meaning.record_lines config.now.records) }
{
    let mut text = Vec::new(alloc);
    for (key, entry) in config.walk() {
        put_record_line(alloc, &mut text, key, entry)?;
    }
    Ok(text)
}

/// Puts the line of a record.
fn put_record_line<A: Allocator>(
    alloc: Global,
    text: &mut Vec<u8>,
    key: &Key,
    entry: &Record<A>,
) -> Result<(), AllocError>
    ensures { OnOk result (text.new.items ≡ text.old.items
        ++ lines.line (meaning.record_line_value (key.now, entry.now))) }
{
    text.extend_from_slice(b"{\"key\":")?;
    put_key(alloc, text, key)?;
    text.extend_from_slice(b",\"record\":")?;
    put_record(alloc, text, entry)?;
    text.extend_from_slice(b",\"type\":\"record\"}\n")?;
    Ok(())
}

/// Puts the text of a key between quotes.
pub(crate) fn put_key(alloc: Global, text: &mut Vec<u8>, key: &Key) -> Result<(), AllocError>
    ensures { OnOk result (text.new.items ≡ text.old.items ++ quoted (key_text key.now)) }
{
    let written = format!(in alloc; "{key}")?;
    put_quoted(text, written.as_bytes())
}
