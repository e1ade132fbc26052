ghost use Rattle.std.specs.Prelude.{◌≡◌, ◌++◌, IfSome, OnOk};
ghost use Rattle.serde_json.specs.Written.{comma_if};

use std::alloc::{AllocError, Global};
use std::fmt;

/// Puts what is shown behind a text. Answers the lack of memory alone.
pub fn put<D: fmt::Display + Drop>(
    alloc: Global,
    shown: D,
    text: &mut Vec<u8>,
) -> Result<(), AllocError>
    ensures { IfSome (D.output shown) (λ written. OnOk result (text.new.items ≡ text.old.items ++ written)) }
{
    let written = format!(in alloc; "{shown}")?;
    text.extend_from_slice(written.as_bytes())?;
    Ok(())
}

/// Two hexadecimal digits of a byte.
#[derive(Clone, Copy)]
pub struct Hex2(pub u8);

impl fmt::Display for Hex2 {
    ghost use Rattle.std.specs.Prelude.{Some};
    ghost use Rattle.iocm_types.specs.Print.{hex2};

    ghost output = { λ b. Some (hex2 b.0) };

    fn fmt<W: fmt::Write>(&self, f: &mut fmt::Formatter<W>) -> fmt::Result {
        let byte = self.0;
        write!(f, "{byte:02X}")
    }
}

/// Puts a comma between an item and one before it. Answers the lack of memory alone.
pub fn put_comma(text: &mut Vec<u8>, later: bool) -> Result<(), AllocError>
    ensures { OnOk result (text.new.items ≡ text.old.items ++ comma_if later) }
{
    if later {
        text.push(b',')?;
    }
    Ok(())
}

/// Four hexadecimal digits of a half-word.
#[derive(Clone, Copy)]
pub(crate) struct Hex4(pub u16);

impl fmt::Display for Hex4 {
    ghost use Rattle.std.specs.Prelude.{Some};
    ghost use Rattle.iocm_types.specs.Print.{hex4};

    ghost output = { λ h. Some (hex4 h.0) };

    fn fmt<W: fmt::Write>(&self, f: &mut fmt::Formatter<W>) -> fmt::Result {
        let number = self.0;
        write!(f, "{number:04X}")
    }
}
