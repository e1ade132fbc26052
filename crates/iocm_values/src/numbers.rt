ghost use Rattle.std.specs.Prelude.{◌≡◌, ◌≤◌, IfSome};
ghost use Rattle.iocm_values.specs.Numbers as numbers;

use crate::digits::{decimal, hex};
use iocm_types::{Chpid, UnitNo};

/// A path number, one or two hexadecimal digits.
pub fn path_number(text: &[u8]) -> Option<Chpid>
    ensures { result ≡ numbers.path_number text.now }
{
    let number = hex(255, 2, text)?;
    Some(Chpid::new(number as u8))
}

/// The number of a control unit, one to four hexadecimal digits, up to FFFE.
pub fn unit_number(text: &[u8]) -> Option<UnitNo>
    ensures { result ≡ numbers.unit_number text.now }
{
    let number = hex(65534, 4, text)?;
    UnitNo::new(number as u16)
}

/// A unit address, one or two hexadecimal digits.
pub fn unit_address(text: &[u8]) -> Option<u8>
    ensures { result ≡ numbers.unit_address text.now }
{
    let address = hex(255, 2, text)?;
    Some(address as u8)
}

/// A decimal count, 1 to `limit`.
pub fn count_of(limit: u32, text: &[u8]) -> Option<u32>
    ensures value { result ≡ numbers.count_of limit text.now }
    ensures within { IfSome result (λ n. n ≤ limit) }
{
    let number = decimal(limit, text)?;
    if number == 0 { None } else { Some(number) }
}
