ghost use Rattle.std.specs.Prelude.{◌≡◌, ◌<◌, IfSome, unwrap_or};
ghost use Rattle.json.specs.Print as print;

use std::fmt;

/// A text between quotes, as JSON has it: a quote, a backslash and what is below a blank with their
/// escapes.
#[derive(Clone, Copy)]
pub struct Quoted<'t>(pub &'t str);

impl<'t> fmt::Display for Quoted<'t> {
    ghost use Rattle.std.specs.Prelude.{Some};
    ghost use Rattle.json.specs.Print.{quoted};

    ghost output = { λ q. Some (quoted q.0.now) };

    fn fmt<W: fmt::Write>(&self, f: &mut fmt::Formatter<W>) -> fmt::Result {
        f.write_str("\"")?;
        for character in self.0.chars() {
            let escaped = Escaped(character);
            write!(f, "{escaped}")?;
        }
        f.write_str("\"")
    }
}

/// What stands in a text for a character.
#[derive(Clone, Copy)]
struct Escaped(char);

impl fmt::Display for Escaped {
    ghost use Rattle.std.specs.Prelude.{Some};
    ghost use Rattle.std.specs.Char.{encode_utf8};
    ghost use Rattle.json.specs.Print.{escape};

    ghost output = { λ c. Some (escape (encode_utf8 c.0)) };

    fn fmt<W: fmt::Write>(&self, f: &mut fmt::Formatter<W>) -> fmt::Result {
        let code = self.0 as u32;
        match escape_letter(code) {
            Some(letter) => write!(f, "\\{letter}"),
            None if code < 32 => write!(f, "\\u00{code:02x}"),
            None => f.write_char(self.0),
        }
    }
}

/// The letter of the short escape of the character with this code, if it has one.
fn escape_letter(code: u32) -> Option<char>
    ensures letter { unwrap_or result 0 ≡ print.escape_letter code }
    ensures some { IfSome result (λ letter. 0 < letter) }
    ensures ascii { IfSome result (λ letter. letter < 128) }
{
    match code {
        34 => Some('"'),
        92 => Some('\\'),
        8 => Some('b'),
        9 => Some('t'),
        10 => Some('n'),
        12 => Some('f'),
        13 => Some('r'),
        _ => None,
    }
}
