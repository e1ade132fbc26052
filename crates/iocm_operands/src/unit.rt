ghost use Rattle.std.specs.Prelude.{◌≡◌, map, [], ◌∷◌, IfOk};
ghost use Rattle.iocm_statements.specs.Unread.{Reads};
ghost use Rattle.iocm_operands.specs.Unit as meaning;
ghost use Rattle.iocm_values.specs.Reading.{every};
ghost use Rattle.iocm_values.specs.Value.{seen};

use iocm_statements::Unread;
use iocm_types::{Css, CssLink, CssPath, Link, UnitNo, UnitRange};
use iocm_values::{CssItem, Value, by_css, count_of, hex, path_number, unit_address, unit_number};
use std::alloc::{AllocError, Global};
use std::marker::Model;

/// The number of a control unit, which stands alone.
pub fn number_of(value: Value) -> Option<UnitNo>
    ensures { result ≡ meaning.number_of (seen value.entry) }
{
    unit_number(value.word()?)
}

fn path_item(css: Css, value: Value) -> Option<CssPath>
    ensures { result ≡ meaning.path_item css (seen value.entry) }
{
    let path = path_number(value.word()?)?;
    Some(CssPath { css, path })
}

// A path of a control unit, as an item of its list. Contracts see the path.
#[derive(Clone, Copy)]
struct PathItem {
    path: CssPath,
}

impl Model for PathItem {
    ghost use Rattle.iocm_types.specs.declared.css_path.CssPath.{CssPath};

    ghost Value = { CssPath };

    ghost view = { λ i. i.path };

    ghost inverse = { λ x. record { path = x } };
}

impl CssItem for PathItem {
    ghost use Rattle.std.specs.Prelude.{false};
    ghost use Rattle.iocm_types.specs.declared.css_path.CssPath.{CssPath};
    ghost use Rattle.iocm_operands.specs.Unit as meaning;

    ghost item = { meaning.path_item };

    ghost subsystem = { λ (p : CssPath). p.css };

    ghost may_lack = { false };

    fn read(_alloc: Global, css: Css, value: Value) -> Result<Self, Unread> {
        let path = path_item(css, value).ok_or(Unread::Malformed)?;
        Ok(PathItem { path })
    }

    fn css(&self) -> Css {
        self.path.css
    }

    fn may_lack_items() -> bool {
        false
    }
}

/// The paths of PATH, a list by channel subsystem, with channel subsystems ascending.
pub fn paths_of(alloc: Global, value: Value) -> Result<Vec<CssPath>, Unread>
    ensures { Reads (λ v. v.items) result (meaning.paths_of (seen value.entry)) }
{
    let items: Vec<PathItem> = by_css(alloc, value)?;
    Ok(paths_in(alloc, &items)?)
}

fn paths_in(alloc: Global, items: &[PathItem]) -> Result<Vec<CssPath>, AllocError>
    ensures { IfOk result (λ found. found.items ≡ items.now) }
{
    let mut found = Vec::new(alloc);
    for item in items {
        found.push(item.path)?;
    }
    Ok(found)
}

fn short_link(text: &[u8]) -> Option<Link>
    ensures { result ≡ meaning.short_link text.now }
{
    let link = hex(255, 2, text)?;
    Some(Link::Short(link as u8))
}

fn long_link(text: &[u8]) -> Option<Link>
    ensures { result ≡ meaning.long_link text.now }
{
    let link = hex(65535, 4, text)?;
    Some(Link::Long(link as u16))
}

// Two digits and four digits are two links.
fn link_of(text: &[u8]) -> Option<Link>
    ensures { result ≡ meaning.link_of text.now }
{
    if text == b"**".as_slice() {
        return Some(Link::None);
    }
    match text.len() {
        2 => short_link(text),
        4 => long_link(text),
        _ => None,
    }
}

fn link_item(css: Css, value: Value) -> Option<CssLink>
    ensures { result ≡ meaning.link_item css (seen value.entry) }
{
    let link = link_of(value.word()?)?;
    Some(CssLink { css, link })
}

// A link of a control unit, as an item of its list. Contracts see the link.
#[derive(Clone, Copy)]
struct LinkItem {
    link: CssLink,
}

impl Model for LinkItem {
    ghost use Rattle.iocm_types.specs.declared.link.CssLink.{CssLink};

    ghost Value = { CssLink };

    ghost view = { λ i. i.link };

    ghost inverse = { λ x. record { link = x } };
}

impl CssItem for LinkItem {
    ghost use Rattle.std.specs.Prelude.{false};
    ghost use Rattle.iocm_types.specs.declared.link.CssLink.{CssLink};
    ghost use Rattle.iocm_operands.specs.Unit as meaning;

    ghost item = { meaning.link_item };

    ghost subsystem = { λ (l : CssLink). l.css };

    ghost may_lack = { false };

    fn read(_alloc: Global, css: Css, value: Value) -> Result<Self, Unread> {
        let link = link_item(css, value).ok_or(Unread::Malformed)?;
        Ok(LinkItem { link })
    }

    fn css(&self) -> Css {
        self.link.css
    }

    fn may_lack_items() -> bool {
        false
    }
}

/// The links of LINK, a list by channel subsystem, with channel subsystems ascending: two or four
/// digits, or `**` for none.
pub fn links_of(alloc: Global, value: Value) -> Result<Vec<CssLink>, Unread>
    ensures { Reads (λ v. v.items) result (meaning.links_of (seen value.entry)) }
{
    let items: Vec<LinkItem> = by_css(alloc, value)?;
    Ok(links_in(alloc, &items)?)
}

fn links_in(alloc: Global, items: &[LinkItem]) -> Result<Vec<CssLink>, AllocError>
    ensures { IfOk result (λ found. found.items ≡ items.now) }
{
    let mut found = Vec::new(alloc);
    for item in items {
        found.push(item.link)?;
    }
    Ok(found)
}

fn range_listed(items: &[Value]) -> Option<UnitRange>
    ensures { result ≡ meaning.range_listed (map seen items.now) }
{
    match items {
        [Value::Word(start)] => Some(UnitRange {
            start: unit_address(start)?,
            count: 1,
        }),
        [Value::Word(start), Value::Word(count)] => {
            let start = unit_address(start)?;
            let count = count_of(256, count)?;
            Some(UnitRange {
                start,
                count: count as u16,
            })
        }
        _ => None,
    }
}

fn range_of(alloc: Global, value: Value) -> Result<UnitRange, Unread>
    ensures { Reads (λ r. r) result (meaning.range_of (seen value.entry)) }
{
    let items = value.items_or_one(alloc)?;
    range_listed(&items).ok_or(Unread::Malformed)
}

#[tactic(auto, using(iocm_values::proofs::Reading::every_steps))]
fn read_ranges(alloc: Global, items: &[Value]) -> Result<Vec<UnitRange>, Unread>
    ensures { Reads (λ v. v.items) result (every meaning.range_of (map seen items.now)) }
{
    let mut ranges = Vec::new(alloc);
    for item in items {
        ranges.push(range_of(alloc, *item)?)?;
    }
    Ok(ranges)
}

fn only_range(alloc: Global, range: UnitRange) -> Result<Vec<UnitRange>, AllocError>
    ensures { IfOk result (λ ranges. ranges.items ≡ range ∷ []) }
{
    let mut ranges = Vec::new(alloc);
    ranges.push(range)?;
    Ok(ranges)
}

fn ranges_listed(alloc: Global, items: &[Value]) -> Result<Vec<UnitRange>, Unread>
    ensures { Reads (λ v. v.items) result (meaning.ranges_listed (map seen items.now)) }
{
    match items {
        [Value::List(_), ..] => read_ranges(alloc, items),
        _ => {
            let range = range_listed(items).ok_or(Unread::Malformed)?;
            Ok(only_range(alloc, range)?)
        }
    }
}

/// The ranges of UNITADD in their order: ranges `(start,count)`, `(start)` or `start`, or one range
/// alone. The start has one or two hexadecimal digits, the count is decimal, 1 to 256, and 1 where
/// it isn't there.
pub fn ranges_of(alloc: Global, value: Value) -> Result<Vec<UnitRange>, Unread>
    ensures { Reads (λ v. v.items) result (meaning.ranges_of (seen value.entry)) }
{
    let items = value.items_or_one(alloc)?;
    ranges_listed(alloc, &items)
}

/// The range of all 256 unit addresses, which a control unit without UNITADD has.
pub fn all_addresses(alloc: Global) -> Result<Vec<UnitRange>, AllocError>
    ensures { IfOk result (λ ranges. ranges.items ≡ meaning.all_addresses) }
{
    only_range(
        alloc,
        UnitRange {
            start: 0,
            count: 256,
        },
    )
}

/// The control unit address of CUADD, one or two hexadecimal digits.
pub fn cuadd_of(value: Value) -> Option<u8>
    ensures { result ≡ meaning.cuadd_of (seen value.entry) }
{
    unit_address(value.word()?)
}
