ghost use Rattle.std.specs.Prelude.{◌≡◌, ◌==◌, ◌++◌, map, filter, OnOk, IfOk};
ghost use Rattle.std.specs.List.{list_any};
ghost use Rattle.std.specs.Option.{option_copied};
ghost use Rattle.iocm_statements.specs.Unread.{Reads};
ghost use Rattle.iocm_values.specs.CssLists as meaning;
ghost use Rattle.iocm_values.specs.Reading.{every, gathered};
ghost use Rattle.iocm_values.specs.Value.{seen};

use crate::Value;
use crate::digits::decimal;
use crate::value::values;
use iocm_statements::Unread;
use iocm_types::Css;
use std::alloc::{AllocError, Global};

/// What stands between the parentheses of the word `CSS(..)`.
pub fn inside_css<'a>(text: &'a [u8]) -> Option<&'a [u8]>
    ensures { option_copied result ≡ meaning.inside_css text.now }
{
    text.strip_prefix(b"CSS(")?.strip_suffix(b")")
}

/// Whether a word is `CSS(..)`, whatever stands inside.
pub fn is_css(text: &[u8]) -> bool
    ensures { result ≡ meaning.is_css text.now }
{
    inside_css(text).is_some()
}

/// The channel subsystem of the word `CSS(n)`: n is decimal with any number of leading zeros, 0 to
/// 5. (IOCP User's Guide, PATH keyword.)
pub fn css_number(text: &[u8]) -> Option<Css>
    ensures { result ≡ meaning.css_number text.now }
{
    let number = decimal(5, inside_css(text)?)?;
    Css::new(number as u8)
}

/// Whether the first item is `CSS(..)`.
pub fn begins_with_css(items: &[Value]) -> bool
    ensures { result ≡ meaning.begins_with_css (map seen items.now) }
{
    match items {
        [Value::Word(text), ..] => is_css(text),
        _ => false,
    }
}

/// An item of a list by channel subsystem, as an operand reads it.
pub trait CssItem: Copy + Drop {
    ghost use Rattle.std.specs.Prelude.{ℕ, Option, Bool};
    ghost use Rattle.iocm_values.specs.Value.{Value};

    /// What an item of a channel subsystem writes.
    ghost item: { ℕ → Value → Option Self };

    /// The channel subsystem of what it writes.
    ghost subsystem: { Self → ℕ };

    /// Whether a group of the operand may lack items.
    ghost may_lack: { Bool };

    fn read(alloc: Global, css: Css, value: Value) -> Result<Self, Unread>
        ensures { Reads (λ x. x) result (item css (seen value.entry)) };

    fn css(&self) -> Css
        ensures { result ≡ subsystem self.now };

    fn may_lack_items() -> bool
        ensures { result ≡ may_lack };
}

// What each item writes, all of one channel subsystem.
#[tactic(auto, using(crate::proofs::Reading::every_steps))]
fn read_each<T: CssItem>(alloc: Global, css: Css, items: &[Value]) -> Result<Vec<T>, Unread>
    ensures { Reads (λ v. v.items) result (every (T.item css) (map seen items.now)) }
{
    let mut found = Vec::new(alloc);
    for item in items {
        found.push(T::read(alloc, css, *item)?)?;
    }
    Ok(found)
}

fn has_items<T: CssItem>(items: &[Value]) -> bool
    ensures { result ≡ meaning.has_items T.may_lack (map seen items.now) }
{
    T::may_lack_items() || !items.is_empty()
}

// What the items of a group write, behind its CSS(n).
fn read_group<T: CssItem>(alloc: Global, items: &[Value]) -> Result<Vec<T>, Unread>
    ensures { Reads (λ v. v.items) result (meaning.group T.may_lack T.item (map seen items.now)) }
{
    match items {
        [Value::Word(css), items @ ..] => {
            if !has_items::<T>(items) {
                return Err(Unread::Malformed);
            }
            let css = css_number(css).ok_or(Unread::Malformed)?;
            read_each(alloc, css, items)
        }
        _ => Err(Unread::Malformed),
    }
}

fn read_group_of<T: CssItem>(alloc: Global, value: Value) -> Result<Vec<T>, Unread>
    ensures { Reads (λ v. v.items) result (meaning.group_of T.may_lack T.item (seen value.entry)) }
{
    let items = value.items(alloc)?;
    read_group(alloc, &items)
}

// What groups write, end to end.
#[tactic(auto, using(crate::proofs::Reading::gathered_steps))]
fn read_groups<T: CssItem>(alloc: Global, items: &[Value]) -> Result<Vec<T>, Unread>
    ensures { Reads (λ v. v.items) result (gathered (meaning.group_of T.may_lack T.item) (map seen items.now)) }
{
    let mut found = Vec::new(alloc);
    for item in items {
        let mut group = read_group_of(alloc, *item)?;
        found.append(&mut group)?;
    }
    Ok(found)
}

// Whether a value is a list whose first item is `CSS(..)`.
fn is_group(alloc: Global, value: Value) -> Result<bool, AllocError>
    ensures { IfOk result (λ answer. answer ≡ meaning.is_group (seen value.entry)) }
{
    match value {
        Value::List(inner) => match values(alloc, inner) {
            Ok(items) => Ok(begins_with_css(&items)),
            Err(Unread::Malformed) => Ok(false),
            Err(Unread::Memory) => Err(AllocError),
        },
        Value::Word(_) => Ok(false),
    }
}

fn begins_with_group(alloc: Global, items: &[Value]) -> Result<bool, AllocError>
    ensures { IfOk result (λ answer. answer ≡ meaning.begins_with_group (map seen items.now)) }
{
    match items {
        [first, ..] => is_group(alloc, *first),
        _ => Ok(false),
    }
}

#[tactic(auto, using(crate::proofs::Looking::any_steps))]
fn has_group(alloc: Global, items: &[Value]) -> Result<bool, AllocError>
    ensures { IfOk result (λ answer. answer ≡ list_any meaning.is_group (map seen items.now)) }
{
    for item in items {
        if is_group(alloc, *item)? {
            return Ok(true);
        }
    }
    Ok(false)
}

fn read_items<T: CssItem>(alloc: Global, items: &[Value]) -> Result<Vec<T>, Unread>
    ensures { Reads (λ v. v.items) result (meaning.by_css_items T.may_lack T.item (map seen items.now)) }
{
    if begins_with_css(items) {
        return read_group(alloc, items);
    }
    if begins_with_group(alloc, items)? {
        return read_groups(alloc, items);
    }
    if has_group(alloc, items)? {
        return Err(Unread::Malformed);
    }
    read_each(alloc, Css::FIRST, items)
}

// The items of one channel subsystem go behind what was found.
fn add_css<T: CssItem>(items: &[T], css: u8, found: &mut Vec<T>) -> Result<(), AllocError>
    ensures { OnOk result (found.new.items ≡ found.old.items ++ filter (λ x. T.subsystem x == css) items.now) }
{
    for item in items {
        if item.css().number() != css {
            continue;
        }
        found.push(*item)?;
    }
    Ok(())
}

/// The items of one channel subsystem, in their order.
pub fn in_css<T: CssItem>(alloc: Global, items: &[T], css: u8) -> Result<Vec<T>, AllocError>
    ensures { IfOk result (λ found. found.items ≡ filter (λ x. T.subsystem x == css) items.now) }
{
    let mut found = Vec::new(alloc);
    add_css(items, css, &mut found)?;
    Ok(found)
}

// The items with channel subsystems ascending, and each one's in their order.
fn in_css_order<T: CssItem>(alloc: Global, items: &[T]) -> Result<Vec<T>, AllocError>
    ensures { IfOk result (λ found. found.items ≡ meaning.in_css_order T.subsystem items.now) }
{
    let mut found = Vec::new(alloc);
    add_css(items, 0, &mut found)?;
    add_css(items, 1, &mut found)?;
    add_css(items, 2, &mut found)?;
    add_css(items, 3, &mut found)?;
    add_css(items, 4, &mut found)?;
    add_css(items, 5, &mut found)?;
    Ok(found)
}

/// What a list by channel subsystem writes, with channel subsystems ascending, and each one's in
/// the order of the text. Malformed where the value has none of the three forms, or an item none of
/// the operand's.
pub fn by_css<T: CssItem>(alloc: Global, value: Value) -> Result<Vec<T>, Unread>
    ensures { Reads (λ v. v.items) result (meaning.by_css T.may_lack T.item T.subsystem (seen value.entry)) }
{
    let items = value.items(alloc)?;
    let found = read_items(alloc, &items)?;
    Ok(in_css_order(alloc, &found)?)
}
