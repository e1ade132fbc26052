ghost use Rattle.std.specs.Prelude.{◌≡◌, ◌≤◌, ◌+◌, map, IfOk, IfSome};
ghost use Rattle.iocm_statements.specs.Unread.{Reads};
ghost use Rattle.iocm_operands.specs.Device as meaning;
ghost use Rattle.iocm_values.specs.Reading.{every};
ghost use Rattle.iocm_values.specs.Value.{seen};

use iocm_statements::Unread;
use iocm_types::{List, Name, SetNo, UnitNo};
use iocm_values::{
    Value, count_of, css_number, decimal, hex, set_of_names, those_there, unit_number, words,
};
use std::alloc::Global;

/// The devices of a statement: the number of the first, and how many there are.
#[derive(Clone, Copy)]
pub struct Devices {
    /// The number of the first, at most FFFF.
    pub first: u32,
    /// How many there are, 1 to 4096.
    pub count: u32,
}

// No device number is past FFFF.
fn devices_within(first: u32, count: u32) -> Option<Devices>
    requires first { first ≤ 65535 }
    requires count { count ≤ 4096 }
    ensures value { result ≡ meaning.devices_within first count }
    ensures within { IfSome result (λ d. (d.first + d.count ≤ 65536) × (d.count ≤ 4096)) }
{
    if first + count <= 65536 {
        Some(Devices { first, count })
    } else {
        None
    }
}

fn devices_listed(items: &[Value]) -> Option<Devices>
    ensures value { result ≡ meaning.devices_listed (map seen items.now) }
    ensures within { IfSome result (λ d. (d.first + d.count ≤ 65536) × (d.count ≤ 4096)) }
{
    match items {
        [Value::Word(number)] => devices_within(hex(65535, 4, number)?, 1),
        [Value::Word(number), Value::Word(count)] => {
            let first = hex(65535, 4, number)?;
            let count = count_of(4096, count)?;
            devices_within(first, count)
        }
        _ => None,
    }
}

/// The devices of ADDRESS: `(number,count)`, `(number)` or `number`. The number has one to four
/// hexadecimal digits, the count is decimal, 1 to 4096, and 1 where it isn't there; none is past
/// FFFF.
pub fn devices_of(alloc: Global, value: Value) -> Result<Devices, Unread>
    ensures value { Reads (λ d. d) result (meaning.devices_of (seen value.entry)) }
    ensures within { IfOk result (λ d. (d.first + d.count ≤ 65536) × (d.count ≤ 4096)) }
{
    let items = value.items_or_one(alloc)?;
    devices_listed(&items).ok_or(Unread::Malformed)
}

fn unit_item(value: Value) -> Option<UnitNo>
    ensures { result ≡ meaning.unit_item (seen value.entry) }
{
    unit_number(value.word()?)
}

#[tactic(auto, using(iocm_values::proofs::Reading::every_steps))]
fn read_units(alloc: Global, items: &[Value]) -> Result<Vec<UnitNo>, Unread>
    ensures { Reads (λ v. v.items) result (every meaning.unit_item (map seen items.now)) }
{
    let mut units = Vec::new(alloc);
    for item in items {
        units.push(unit_item(*item).ok_or(Unread::Malformed)?)?;
    }
    Ok(units)
}

/// The control units of CUNUMBR in their order: a number, or a list of numbers.
pub fn units_of(alloc: Global, value: Value) -> Result<Vec<UnitNo>, Unread>
    ensures { Reads (λ v. v.items) result (meaning.units_of (seen value.entry)) }
{
    let items = value.items_or_one(alloc)?;
    read_units(alloc, &items)
}

/// The unit address of the first of `count` devices, one or two hexadecimal digits; the last
/// address isn't past FF.
pub fn first_address(count: u32, value: Value) -> Option<u32>
    requires { count ≤ 4096 }
    ensures value { result ≡ meaning.first_address count (seen value.entry) }
    ensures within { IfSome result (λ n. n + count ≤ 256) }
{
    let first = hex(255, 2, value.word()?)?;
    if first + count <= 256 {
        Some(first)
    } else {
        None
    }
}

/// The subchannel set of SCHSET, 0 to 3 in decimal.
pub fn set_of(value: Value) -> Option<SetNo>
    ensures { result ≡ meaning.set_of (seen value.entry) }
{
    let number = decimal(3, value.word()?)?;
    SetNo::new(number as u8)
}

// Whether a word stands for no name.
fn is_no_name(text: &[u8]) -> bool
    ensures { result ≡ meaning.is_no_name text.now }
{
    text == b"0".as_slice() || css_number(text).is_some()
}

// A word of a list of candidates: a name, or what stands for none.
fn candidate_word(text: &[u8]) -> Option<Option<Name>>
    ensures { result ≡ meaning.candidate_word text.now }
{
    if is_no_name(text) {
        return Some(None);
    }
    let name = Name::new(text)?;
    Some(Some(name))
}

#[tactic(auto, using(iocm_values::proofs::Reading::every_steps))]
fn read_candidates(alloc: Global, texts: &[&[u8]]) -> Result<Vec<Option<Name>>, Unread>
    ensures { Reads (λ v. v.items) result (every meaning.candidate_word (map (λ k. k.now) texts.now)) }
{
    let mut names = Vec::new(alloc);
    for text in texts {
        names.push(candidate_word(text).ok_or(Unread::Malformed)?)?;
    }
    Ok(names)
}

fn candidates_listed(alloc: Global, inner: &[u8]) -> Result<List<Name>, Unread>
    ensures { Reads (λ v. v) result (meaning.candidates_listed inner.now) }
{
    let words = words(alloc, inner)?;
    let names = read_candidates(alloc, &words)?;
    let names = those_there(alloc, &names)?;
    Ok(List::from_vec(set_of_names(names)?))
}

// A name alone, or `0` for none.
fn candidate_alone(alloc: Global, text: &[u8]) -> Result<List<Name>, Unread>
    ensures { Reads (λ v. v) result (meaning.candidate_alone text.now) }
{
    let mut only = Vec::new(alloc);
    if text != b"0".as_slice() {
        only.push(Name::new(text).ok_or(Unread::Malformed)?)?;
    }
    Ok(List::from_vec(only))
}

/// The candidates of PARTITION, ascending with each once: a name, or names, lists of names and
/// `CSS(n)` nested at will; `0` stands for the empty list wherever a list may stand.
pub fn candidates_of(alloc: Global, value: Value) -> Result<List<Name>, Unread>
    ensures { Reads (λ v. v) result (meaning.candidates_of (seen value.entry)) }
{
    match value {
        Value::Word(text) => candidate_alone(alloc, text),
        Value::List(inner) => candidates_listed(alloc, inner),
    }
}
