ghost use Rattle.std.specs.Prelude.{◌≡◌, ◌≤◌, ◌<◌, ◌+◌, ◌-◌, ◌^◌, ◌++◌, max, IfOk, OnOk};
ghost use Rattle.iocm_columns.specs.Written as meaning;
ghost use Rattle.iocm_columns.specs.Written.{cut_from};

use crate::Joined;
use std::alloc::{AllocError, Global};

/// The column in which no text stands: `X` in it says that the line is continued.
const CONTINUED: usize = 72;

/// The first column of a continuation.
const CONTINUATION: usize = 16;

/// Behind column 71: `X` in column 72, the end of the line, and columns 1 to 15 of the next one.
const CUT: &[u8] = b"X\n               ";

/// The column behind a column in which text stands.
fn column_behind(column: usize) -> usize
    requires { column ≤ 72 }
    ensures column { result ≡ meaning.column_behind column }
    ensures within { result ≤ 72 }
{
    if column == CONTINUED {
        return CONTINUATION + 1;
    }
    column + 1
}

/// Puts a byte at a column, in a continuation if the column is 72.
fn put_byte(text: &mut Vec<u8>, column: usize, byte: u8) -> Result<(), AllocError>
    ensures { OnOk result (text.new.items ≡ text.old.items ++ meaning.placed column byte) }
{
    if column == CONTINUED {
        text.extend_from_slice(CUT)?;
    }
    text.push(byte)?;
    Ok(())
}

/// Puts a text from column 1 on, in continuations where it passes column 71.
fn put_columns(text: &mut Vec<u8>, columns: &[u8]) -> Result<(), AllocError>
    ensures { OnOk result (text.new.items ≡ text.old.items ++ cut_from 1 columns.now) }
{
    let mut column = 1;
    for byte in columns {
        put_byte(text, column, *byte)?;
        column = column_behind(column);
    }
    Ok(())
}

/// How many columns stand before the operation, for a name of so many bytes.
fn behind_name(len: usize) -> usize
    requires { len < 2 ^ 63 }
    ensures { result ≡ len + max 1 (9 - len) }
{
    if len < 8 { 9 } else { len + 1 }
}

/// The whole of a statement, as it would stand in one line of any length.
fn statement_columns(alloc: Global, joined: &Joined) -> Result<Vec<u8>, AllocError>
    ensures { IfOk result (λ columns. columns.items ≡ meaning.statement_columns joined.now) }
{
    let name = joined.name.as_slice();
    let part = joined.text.as_slice();
    let mut columns = Vec::from_slice(alloc, name)?;
    columns.resize(behind_name(name.len()), b' ')?;
    columns.extend_from_slice(joined.operation.as_slice())?;
    if !part.is_empty() {
        columns.push(b' ')?;
        columns.extend_from_slice(part)?;
    }
    Ok(columns)
}

/// Puts the lines of a statement behind a text.
fn put_statement(alloc: Global, text: &mut Vec<u8>, joined: &Joined) -> Result<(), AllocError>
    ensures { OnOk result (text.new.items ≡ text.old.items ++ meaning.statement_lines joined.now) }
{
    let columns = statement_columns(alloc, joined)?;
    put_columns(text, &columns)?;
    text.push(b'\n')?;
    Ok(())
}

/// The bytes of a deck of these statements: the name from column 1, the operation from column 10,
/// one blank, the operand part; what passes column 71 goes on in column 16 of the next line, behind
/// `X` in column 72. Lines end with LF. (IOCP User's Guide, on coding the statements.) Answers the
/// lack of memory alone.
pub fn deck_bytes(alloc: Global, deck: &[Joined]) -> Result<Vec<u8>, AllocError>
    ensures { IfOk result (λ bytes. bytes.items ≡ meaning.deck_bytes deck.now) }
{
    let mut bytes = Vec::new(alloc);
    for joined in deck {
        put_statement(alloc, &mut bytes, joined)?;
    }
    Ok(bytes)
}
