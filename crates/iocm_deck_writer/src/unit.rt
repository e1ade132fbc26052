ghost use Rattle.std.specs.Prelude.{◌≡◌, map, IfOk};
ghost use Rattle.std.specs.Option.{option_map};
ghost use Rattle.iocm_types.specs.Print.{hex2};
ghost use Rattle.iocm_operands.specs.Unit as meaning;
ghost use Rattle.iocm_deck_writer.specs.Canonical.{cntlunit_operands};
ghost use Rattle.iocm_deck_writer.specs.Statement.{if_any};
ghost use Rattle.iocm_record.specs.Meaning.{unit_of};

use crate::operands::put_valued;
use iocm_record::{Carried, UnitFields};
use iocm_types::{CssLink, CssPath, Link, Text, UnitRange};
use iocm_values::{CssText, by_css_text, list_text, printed};
use std::alloc::{AllocError, Allocator, Global};

/// Two hexadecimal digits.
pub fn two_digits(alloc: Global, number: u8) -> Result<Text, AllocError>
    ensures { IfOk result (λ text. text ≡ hex2 number) }
{
    let text = format!(in alloc; "{number:02X}")?;
    Ok(Text::from_vec(text.into_bytes()))
}

fn path_item_text(alloc: Global, path: CssPath) -> Result<CssText, AllocError>
    ensures { IfOk result (λ item. item ≡ meaning.path_item_text path) }
{
    Ok(CssText {
        css: path.css,
        text: printed(alloc, &path.path)?,
    })
}

fn paths_text(alloc: Global, paths: &[CssPath]) -> Result<Text, AllocError>
    ensures { IfOk result (λ text. text ≡ meaning.paths_text paths.now) }
{
    let mut items = Vec::new(alloc);
    for path in paths {
        items.push(path_item_text(alloc, *path)?)?;
    }
    by_css_text(alloc, &items)
}

fn link_text(alloc: Global, link: Link) -> Result<Text, AllocError>
    ensures { IfOk result (λ text. text ≡ meaning.link_text link) }
{
    match link {
        Link::None => Text::from_slice(alloc, b"**"),
        Link::Short(number) => two_digits(alloc, number),
        Link::Long(number) => {
            let text = format!(in alloc; "{number:04X}")?;
            Ok(Text::from_vec(text.into_bytes()))
        }
    }
}

fn link_item_text(alloc: Global, link: CssLink) -> Result<CssText, AllocError>
    ensures { IfOk result (λ item. item ≡ meaning.link_item_text link) }
{
    Ok(CssText {
        css: link.css,
        text: link_text(alloc, link.link)?,
    })
}

fn links_text(alloc: Global, links: &[CssLink]) -> Result<Text, AllocError>
    ensures { IfOk result (λ text. text ≡ meaning.links_text links.now) }
{
    let mut items = Vec::new(alloc);
    for link in links {
        items.push(link_item_text(alloc, *link)?)?;
    }
    by_css_text(alloc, &items)
}

fn range_text(alloc: Global, range: UnitRange) -> Result<Text, AllocError>
    ensures { IfOk result (λ text. text ≡ meaning.range_text range) }
{
    let items = vec![in alloc;
        two_digits(alloc, range.start)?,
        printed(alloc, &range.count)?,
    ]?;
    list_text(alloc, &items)
}

fn ranges_text(alloc: Global, ranges: &[UnitRange]) -> Result<Text, AllocError>
    ensures { IfOk result (λ text. text ≡ meaning.ranges_text ranges.now) }
{
    let mut items = Vec::new(alloc);
    for range in ranges {
        items.push(range_text(alloc, *range)?)?;
    }
    list_text(alloc, &items)
}

fn paths_operand(alloc: Global, paths: &[CssPath]) -> Result<Option<Text>, AllocError>
    ensures { IfOk result (λ text. text ≡ if_any paths.now (meaning.paths_text paths.now)) }
{
    if paths.is_empty() {
        return Ok(None);
    }
    Ok(Some(paths_text(alloc, paths)?))
}

fn links_operand(alloc: Global, links: &[CssLink]) -> Result<Option<Text>, AllocError>
    ensures { IfOk result (λ text. text ≡ if_any links.now (meaning.links_text links.now)) }
{
    if links.is_empty() {
        return Ok(None);
    }
    Ok(Some(links_text(alloc, links)?))
}

fn cuadd_operand(alloc: Global, cuadd: Option<u8>) -> Result<Option<Text>, AllocError>
    ensures { IfOk result (λ text. text ≡ option_map hex2 cuadd) }
{
    let Some(cuadd) = cuadd else {
        return Ok(None);
    };
    Ok(Some(two_digits(alloc, cuadd)?))
}

/// The operands of a control unit, without what it carries.
pub fn cntlunit_operands<A: Allocator>(
    alloc: Global,
    unit: &UnitFields<A>,
) -> Result<Vec<Carried>, AllocError>
    ensures { IfOk result (λ operands. operands.items ≡ cntlunit_operands (unit_of unit.now)) }
{
    let mut operands = Vec::new(alloc);
    let number = printed(alloc, &unit.number)?;
    put_valued(alloc, &mut operands, b"CUNUMBR", Some(number))?;
    let paths = paths_operand(alloc, unit.paths.as_slice())?;
    put_valued(alloc, &mut operands, b"PATH", paths)?;
    let ranges = ranges_text(alloc, unit.ranges.as_slice())?;
    put_valued(alloc, &mut operands, b"UNITADD", Some(ranges))?;
    let links = links_operand(alloc, unit.links.as_slice())?;
    put_valued(alloc, &mut operands, b"LINK", links)?;
    let cuadd = cuadd_operand(alloc, unit.cuadd)?;
    put_valued(alloc, &mut operands, b"CUADD", cuadd)?;
    Ok(operands)
}
