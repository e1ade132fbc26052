ghost use Rattle.std.specs.Prelude.{◌≡◌, ◌<◌, ◌++◌, OnOk, IfSome, unwrap_or};
ghost use Rattle.std.specs.Char.{digit_char};
ghost use Rattle.json.specs.Print as print;

use std::alloc::AllocError;

/// Puts bytes between quotes, with their escapes. Answers the lack of memory alone.
pub fn put_quoted(text: &mut Vec<u8>, value: &[u8]) -> Result<(), AllocError>
    ensures { OnOk result (text.new.items ≡ text.old.items ++ print.quoted value.now) }
{
    text.push(b'"')?;
    for byte in value {
        put_escaped(text, *byte)?;
    }
    text.push(b'"')?;
    Ok(())
}
/// Puts what stands in a text for a byte.
fn put_escaped(text: &mut Vec<u8>, byte: u8) -> Result<(), AllocError>
    ensures { OnOk result (text.new.items ≡ text.old.items ++ print.escape_byte byte) }
{
    match escape_letter(byte) {
        Some(letter) => {
            text.extend_from_slice(&[b'\\', letter])?;
            Ok(())
        }
        None => put_long_escaped(text, byte),
    }
}

/// Puts what stands in a text for a byte that has no short escape.
fn put_long_escaped(text: &mut Vec<u8>, byte: u8) -> Result<(), AllocError>
    requires { print.escape_letter byte ≡ 0 }
    ensures { OnOk result (text.new.items ≡ text.old.items ++ print.escape_byte byte) }
{
    if byte < b' ' {
        let high = digit(byte / 16);
        let low = digit(byte % 16);
        text.extend_from_slice(&[b'\\', b'u', b'0', b'0', high, low])?;
        return Ok(());
    }
    text.push(byte)?;
    Ok(())
}

/// The letter of the short escape of a byte, if it has one.
fn escape_letter(byte: u8) -> Option<u8>
    ensures letter { unwrap_or result 0 ≡ print.escape_letter byte }
    ensures some { IfSome result (λ letter. 0 < letter) }
{
    match byte {
        b'"' | b'\\' => Some(byte),
        8 => Some(b'b'),
        12 => Some(b'f'),
        b'\n' => Some(b'n'),
        b'\r' => Some(b'r'),
        b'\t' => Some(b't'),
        _ => None,
    }
}

/// A hexadecimal digit in lower case, as escapes have it.
fn digit(value: u8) -> u8
    requires { value < 16 }
    ensures { result ≡ digit_char value }
{
    if value < 10 {
        b'0' + value
    } else {
        b'a' + (value - 10)
    }
}
