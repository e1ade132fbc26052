ghost use Rattle.std.specs.Prelude.{◌≡◌, ◌++◌, ◌∷◌, [], map, IfOk, OnOk};
ghost use Rattle.std.specs.List.{find, flat_map};
ghost use Rattle.std.specs.Option.{option_map};
ghost use Rattle.iocm_model.specs.Machine.Record.{LimitRecord};
ghost use Rattle.iocm_operands.specs.Limits as limits_operand;
ghost use Rattle.iocm_operands.specs.Resource as images_operand;
ghost use Rattle.iocm_deck_writer.specs.Resource as meaning;

use crate::CanonicalStatement;
use crate::operands::{put_carried, put_valued};
use iocm_operands::{ImageEntry, LimitEntry};
use iocm_record::{Carried, Record, RecordBody};
use iocm_statements::Operation;
use iocm_types::{Css, Text};
use iocm_values::{CssText, by_css_text, list_text, printed, subsystem};
use std::alloc::{AllocError, Allocator, Global};

// An image in the group of its channel subsystem.
fn image_text(alloc: Global, image: ImageEntry) -> Result<CssText, AllocError>
    ensures { IfOk result (λ item. item ≡ images_operand.image_text image) }
{
    let items = vec![in alloc; printed(alloc, &image.name)?, printed(alloc, &image.mif)?]?;
    Ok(CssText {
        css: image.css,
        text: list_text(alloc, &items)?,
    })
}

fn images_text(alloc: Global, images: &[ImageEntry]) -> Result<Text, AllocError>
    ensures { IfOk result (λ text. text ≡ images_operand.images_text images.now) }
{
    let mut items = Vec::new(alloc);
    for image in images {
        items.push(image_text(alloc, *image)?)?;
    }
    by_css_text(alloc, &items)
}

fn is_limit_at(css: Css, set: u8, limit: LimitEntry) -> bool
    ensures { result ≡ limits_operand.is_limit_at css set limit }
{
    limit.css == css && limit.set.number() == set
}

// The limit of a set of a channel subsystem, if it has one.
#[tactic(auto, using(crate::proofs::Rest::find_steps))]
fn limit_at(limits: &[LimitEntry], css: Css, set: u8) -> Option<u16>
    ensures { result
        ≡ option_map (λ (l : LimitRecord). l.limit) (find (limits_operand.is_limit_at css set) limits.now) }
{
    for limit in limits {
        if is_limit_at(css, set, *limit) {
            return Some(limit.limit);
        }
    }
    None
}

// The place of a set, empty where it has no limit.
fn place_text(
    alloc: Global,
    limits: &[LimitEntry],
    css: Css,
    set: u8,
) -> Result<CssText, AllocError>
    ensures { IfOk result (λ item. item ≡ limits_operand.place_text limits.now css set) }
{
    let text = match limit_at(limits, css, set) {
        Some(limit) => printed(alloc, &limit)?,
        None => Text::new(alloc),
    };
    Ok(CssText { css, text })
}

// The same behind other items.
fn put_place(
    alloc: Global,
    limits: &[LimitEntry],
    css: Css,
    set: u8,
    items: &mut Vec<CssText>,
) -> Result<(), AllocError>
    ensures { OnOk result (items.new.items ≡ items.old.items ++ limits_operand.place_text limits.now css set ∷ []) }
{
    items.push(place_text(alloc, limits, css, set)?)?;
    Ok(())
}

// How many places a channel subsystem has.
fn count_places(limits: &[LimitEntry], css: Css) -> u8
    ensures { result ≡ limits_operand.count_places limits.now css }
{
    let mut count = 0;
    for limit in limits {
        if limit.css != css {
            continue;
        }
        count = count.max(limit.set.number() + 1);
    }
    count
}

// The places of a channel subsystem, behind what was found.
fn put_places(
    alloc: Global,
    limits: &[LimitEntry],
    css: Css,
    items: &mut Vec<CssText>,
) -> Result<(), AllocError>
    ensures { OnOk result (items.new.items ≡ items.old.items ++ limits_operand.places_in limits.now css) }
{
    for set in 0..count_places(limits, css) {
        put_place(alloc, limits, css, set, items)?;
    }
    Ok(())
}

fn limits_text(alloc: Global, limits: &[LimitEntry]) -> Result<Text, AllocError>
    ensures { IfOk result (λ text. text ≡ limits_operand.limits_text limits.now) }
{
    let mut items = Vec::new(alloc);
    for number in 0..6 {
        put_places(alloc, limits, subsystem(number), &mut items)?;
    }
    let text = by_css_text(alloc, &items)?;
    Ok(text)
}

fn images_value(alloc: Global, images: &[ImageEntry]) -> Result<Option<Text>, AllocError>
    ensures { IfOk result (λ text. text ≡ meaning.images_given images.now) }
{
    if images.is_empty() {
        return Ok(None);
    }
    Ok(Some(images_text(alloc, images)?))
}

fn limits_value(alloc: Global, limits: &[LimitEntry]) -> Result<Option<Text>, AllocError>
    ensures { IfOk result (λ text. text ≡ meaning.limits_given limits.now) }
{
    if limits.is_empty() {
        return Ok(None);
    }
    Ok(Some(limits_text(alloc, limits)?))
}

// The image of a record, if it is one, behind what was found.
fn put_image<A: Allocator>(
    entry: &Record<A>,
    images: &mut Vec<ImageEntry>,
) -> Result<(), AllocError>
    ensures { OnOk result (images.new.items ≡ images.old.items ++ meaning.images_of entry.now) }
{
    match entry.body() {
        RecordBody::Image(css, mif, name) => images.push(ImageEntry {
            css: *css,
            mif: *mif,
            name: *name,
        })?,
        _ => {}
    }
    Ok(())
}

// The limit of a record, if it is one, behind what was found.
fn put_limit<A: Allocator>(
    entry: &Record<A>,
    limits: &mut Vec<LimitEntry>,
) -> Result<(), AllocError>
    ensures { OnOk result (limits.new.items ≡ limits.old.items ++ meaning.limits_of entry.now) }
{
    match entry.body() {
        RecordBody::Limit(css, set, limit) => limits.push(LimitEntry {
            css: *css,
            set: *set,
            limit: *limit,
        })?,
        _ => {}
    }
    Ok(())
}

fn images_in<A: Allocator>(
    alloc: Global,
    records: &[&Record<A>],
) -> Result<Vec<ImageEntry>, AllocError>
    ensures { IfOk result (λ images. images.items ≡ flat_map meaning.images_of (map (λ k. k.now) records.now)) }
{
    let mut images = Vec::new(alloc);
    for entry in records {
        put_image(entry, &mut images)?;
    }
    Ok(images)
}

fn limits_in<A: Allocator>(
    alloc: Global,
    records: &[&Record<A>],
) -> Result<Vec<LimitEntry>, AllocError>
    ensures { IfOk result (λ limits. limits.items ≡ flat_map meaning.limits_of (map (λ k. k.now) records.now)) }
{
    let mut limits = Vec::new(alloc);
    for entry in records {
        put_limit(entry, &mut limits)?;
    }
    Ok(limits)
}

// PARTITION of the images among these records, if there are any.
fn partition_value<A: Allocator>(
    alloc: Global,
    records: &[&Record<A>],
) -> Result<Option<Text>, AllocError>
    ensures { IfOk result (λ text. text
        ≡ meaning.images_given (flat_map meaning.images_of (map (λ k. k.now) records.now))) }
{
    let images = images_in(alloc, records)?;
    images_value(alloc, &images)
}

// MAXDEV of the limits among these records, if there are any.
fn maxdev_value<A: Allocator>(
    alloc: Global,
    records: &[&Record<A>],
) -> Result<Option<Text>, AllocError>
    ensures { IfOk result (λ text. text
        ≡ meaning.limits_given (flat_map meaning.limits_of (map (λ k. k.now) records.now))) }
{
    let limits = limits_in(alloc, records)?;
    limits_value(alloc, &limits)
}

// What the RESOURCE statement among these records carries, behind its operands.
fn put_resource_carried<A: Allocator>(
    alloc: Global,
    operands: &mut Vec<Carried>,
    entry: &Record<A>,
) -> Result<(), AllocError>
    ensures { OnOk result (operands.new.items ≡ operands.old.items ++ meaning.resource_carried entry.now) }
{
    match entry.body() {
        RecordBody::Resource(carried) => put_carried(alloc, operands, carried.as_slice()),
        _ => Ok(()),
    }
}

fn put_all_carried<A: Allocator>(
    alloc: Global,
    operands: &mut Vec<Carried>,
    records: &[&Record<A>],
) -> Result<(), AllocError>
    ensures { OnOk result (operands.new.items
        ≡ operands.old.items ++ flat_map meaning.resource_carried (map (λ k. k.now) records.now)) }
{
    for entry in records {
        put_resource_carried(alloc, operands, entry)?;
    }
    Ok(())
}

fn resource_operands<A: Allocator>(
    alloc: Global,
    records: &[&Record<A>],
) -> Result<Vec<Carried>, AllocError>
    ensures { IfOk result (λ operands. operands.items ≡ meaning.operands_given (map (λ k. k.now) records.now)) }
{
    let mut operands = Vec::new(alloc);
    let partition = partition_value(alloc, records)?;
    put_valued(alloc, &mut operands, b"PARTITION", partition)?;
    let maxdev = maxdev_value(alloc, records)?;
    put_valued(alloc, &mut operands, b"MAXDEV", maxdev)?;
    put_all_carried(alloc, &mut operands, records)?;
    Ok(operands)
}

/// Puts the RESOURCE statement of these records behind what was found, if it has operands.
pub fn put_resource<A: Allocator>(
    alloc: Global,
    records: &[&Record<A>],
    statements: &mut Vec<CanonicalStatement>,
) -> Result<(), AllocError>
    ensures { OnOk result (statements.new.items
        ≡ statements.old.items ++ meaning.resource_statements (map (λ k. k.now) records.now)) }
{
    let operands = resource_operands(alloc, records)?;
    if operands.is_empty() {
        return Ok(());
    }
    statements.push(CanonicalStatement::new(Operation::Resource, operands))?;
    Ok(())
}
