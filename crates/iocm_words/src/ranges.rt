ghost use Rattle.std.specs.Prelude.{◌≡◌, map, IfOk};
ghost use Rattle.iocm_types.specs.Print.{hex2, hex4};
ghost use Rattle.iocm_words.specs.Words.{comma_word};
ghost use Rattle.iocm_words.specs.Ranges as meaning;

use crate::words::comma_word;
use iocm_types::{DevNo, SetNo, Text, UnitRange};
use std::alloc::{AllocError, Global};

/// Device numbers of a subchannel set, from the first to the last.
#[derive(Clone, Copy, PartialEq, Eq)]
pub struct DeviceNumbers {
    /// The subchannel set.
    pub set: SetNo,
    /// The first device.
    pub first: DevNo,
    /// The last device.
    pub last: DevNo,
}

/// How many subchannel numbers of a set a channel subsystem has taken.
#[derive(Clone, Copy, PartialEq, Eq)]
pub struct SetNumbers {
    /// The subchannel set.
    pub set: SetNo,
    /// How many are taken.
    pub used: u64,
    /// How many there may be.
    pub limit: u32,
}

/// Unit addresses from the first to the last.
fn addresses_text(alloc: Global, first: u32, last: u32) -> Result<String, AllocError>
    ensures { IfOk result (λ text. text.bytes.items ≡ meaning.from_to hex2 first last) }
{
    if first == last {
        format!(in alloc; "{first:02X}")
    } else {
        format!(in alloc; "{first:02X}-{last:02X}")
    }
}

/// Unit addresses from the first to the last, as `00-3F`; one alone, as `FE`. Answers the lack of
/// memory alone.
pub fn addresses_word(alloc: Global, first: u8, last: u8) -> Result<Vec<u8>, AllocError>
    ensures { IfOk result (λ word. word.items ≡ meaning.from_to hex2 first last) }
{
    let text = addresses_text(alloc, u32::from(first), u32::from(last))?;
    Ok(text.into_bytes())
}

fn range_text(alloc: Global, range: UnitRange) -> Result<Text, AllocError>
    ensures { IfOk result (λ text. text ≡ meaning.range_word range) }
{
    let first = u32::from(range.start);
    let last = (first + u32::from(range.count)).saturating_sub(1);
    let text = addresses_text(alloc, first, last)?;
    Ok(Text::from_vec(text.into_bytes()))
}

/// The unit addresses of a control unit, as `00-FF,20-2F`; `-` if there are none. Answers the lack
/// of memory alone.
pub fn ranges_word(alloc: Global, ranges: &[UnitRange]) -> Result<Vec<u8>, AllocError>
    ensures { IfOk result (λ word. word.items ≡ comma_word (map meaning.range_word ranges.now)) }
{
    let mut words = Vec::new(alloc);
    for range in ranges {
        words.push(range_text(alloc, *range)?)?;
    }
    comma_word(alloc, &words)
}

fn numbers_text(alloc: Global, first: DevNo, last: DevNo) -> Result<String, AllocError>
    ensures { IfOk result (λ text. text.bytes.items ≡ meaning.from_to hex4 first last) }
{
    if first == last {
        format!(in alloc; "{first}")
    } else {
        format!(in alloc; "{first}-{last}")
    }
}

fn devices_text(alloc: Global, devices: DeviceNumbers) -> Result<Text, AllocError>
    ensures { IfOk result (λ text. text ≡ meaning.devices_word devices) }
{
    let numbers = numbers_text(alloc, devices.first, devices.last)?;
    if devices.set.number() == 0 {
        return Ok(Text::from_vec(numbers.into_bytes()));
    }
    let set = devices.set;
    let text = format!(in alloc; "{set}.{numbers}")?;
    Ok(Text::from_vec(text.into_bytes()))
}

/// Ranges of devices in the form of `--device`, as `2000-203F,1.20C0-20FF,1D0F`: subchannel set 0
/// isn't written. `-` if there are none. Answers the lack of memory alone.
pub fn devices_word(alloc: Global, ranges: &[DeviceNumbers]) -> Result<Vec<u8>, AllocError>
    ensures { IfOk result (λ word. word.items ≡ comma_word (map meaning.devices_word ranges.now)) }
{
    let mut words = Vec::new(alloc);
    for devices in ranges {
        words.push(devices_text(alloc, *devices)?)?;
    }
    comma_word(alloc, &words)
}

fn set_text(alloc: Global, numbers: SetNumbers) -> Result<Text, AllocError>
    ensures { IfOk result (λ text. text ≡ meaning.set_word numbers) }
{
    let SetNumbers { set, used, limit } = numbers;
    let text = format!(in alloc; "{set}:{used}/{limit}")?;
    Ok(Text::from_vec(text.into_bytes()))
}

/// The subchannel numbers that a channel subsystem has taken, of each set, as
/// `0:128/65280,1:128/65535`; `-` if there are none. Answers the lack of memory alone.
pub fn numbers_word(alloc: Global, sets: &[SetNumbers]) -> Result<Vec<u8>, AllocError>
    ensures { IfOk result (λ word. word.items ≡ comma_word (map meaning.set_word sets.now)) }
{
    let mut words = Vec::new(alloc);
    for numbers in sets {
        words.push(set_text(alloc, *numbers)?)?;
    }
    comma_word(alloc, &words)
}
