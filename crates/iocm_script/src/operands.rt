ghost use Rattle.std.specs.Prelude.{◌≡◌, ◌≤◌, [], ◌∷◌, map, IfSome};
ghost use Rattle.std.specs.Option.{option_map};
ghost use Rattle.iocm_script.specs.Operands as meaning;

use iocm_types::{Css, Image, Mask, Mif, SetNo, Setting, SubId};
use iocm_values::{count_of, decimal, hex};

/// A number of so many hexadecimal digits, no fewer and no more, up to `limit`.
fn fixed_hex(limit: u32, digits: usize, text: &[u8]) -> Option<u32>
    ensures value { result ≡ meaning.fixed_hex limit digits text.now }
    ensures within { IfSome result (λ n. n ≤ limit) }
{
    if text.len() == digits {
        hex(limit, digits, text)
    } else {
        None
    }
}

/// The byte that a point follows, and what follows the point.
fn before_point(text: &[u8]) -> Option<(u8, &[u8])>
    ensures { option_map (λ p. (p.0, p.1.now)) result ≡ meaning.before_point text.now }
{
    match text {
        [byte, b'.', rest @ ..] => Some((*byte, rest)),
        _ => None,
    }
}

/// The number of a channel subsystem, one digit.
fn css(byte: u8) -> Option<Css>
    ensures { result ≡ meaning.css byte }
{
    let number = decimal(5, &[byte])?;
    Css::new(number as u8)
}

/// A MIF image ID, one hexadecimal digit.
fn mif(byte: u8) -> Option<Mif>
    ensures { result ≡ meaning.mif byte }
{
    let number = hex(15, 1, &[byte])?;
    Mif::new(number as u8)
}

/// The number of a subchannel set, one digit.
fn set_no(byte: u8) -> Option<SetNo>
    ensures { result ≡ meaning.set_no byte }
{
    let number = decimal(3, &[byte])?;
    SetNo::new(number as u8)
}

/// A subchannel, as `0.1.0.0001`.
pub(crate) fn sub_id(text: &[u8]) -> Option<SubId>
    ensures { result ≡ meaning.sub_id text.now }
{
    let (first, rest) = before_point(text)?;
    let (second, rest) = before_point(rest)?;
    let (third, rest) = before_point(rest)?;
    let image = Image {
        css: css(first)?,
        mif: mif(second)?,
    };
    let set = set_no(third)?;
    let number = fixed_hex(65535, 4, rest)?;
    Some(SubId {
        image,
        set,
        number: number as u16,
    })
}

/// The enabled bit.
fn enabled(text: &[u8]) -> Option<bool>
    ensures { result ≡ meaning.enabled text.now }
{
    match text {
        b"0" => Some(false),
        b"1" => Some(true),
        _ => None,
    }
}

/// What MODIFY SUBCHANNEL sets, by three words.
pub(crate) fn setting(operands: &[&[u8]]) -> Option<Setting>
    ensures { result ≡ meaning.setting (map (λ w. w.now) operands.now) }
{
    match operands {
        [bit, mask, parm] => setting_of(bit, mask, parm),
        _ => None,
    }
}

fn setting_of(bit: &[u8], mask: &[u8], parm: &[u8]) -> Option<Setting>
    ensures { result ≡ meaning.setting (bit.now ∷ mask.now ∷ parm.now ∷ []) }
{
    let enabled = enabled(bit)?;
    let lpm = fixed_hex(255, 2, mask)?;
    let parm = fixed_hex(u32::MAX, 8, parm)?;
    Some(Setting {
        enabled,
        lpm: Mask::from_bits(lpm as u8),
        parm,
    })
}

/// The number of a change deck or of a change, 1 to 4294967295.
pub(crate) fn number(text: &[u8]) -> Option<u64>
    ensures { result ≡ meaning.number text.now }
{
    let number = count_of(u32::MAX, text)?;
    Some(u64::from(number))
}
