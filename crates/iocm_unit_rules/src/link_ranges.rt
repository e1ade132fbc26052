ghost use Rattle.std.specs.Prelude.{◌≡◌, ◌<◌, ◌++◌, true, false, IfOk, OnOk};
ghost use Rattle.std.specs.List.{All, flat_map};
ghost use Rattle.iocm_model.specs.Machine.Configuration.{records_of};
ghost use Rattle.iocm_model.specs.Machine.Record.{unit};
ghost use Rattle.iocm_record.specs.Meaning.{unit_of};
ghost use Rattle.iocm_unit_rules.specs.LinkRanges as model;

use crate::ranges::end_of;
use crate::sharing_at_opening::list_of_unit;
use iocm_config::Config;
use iocm_lookup::{RecordKind, records_of_kind};
use iocm_record::{Record, RecordBody, UnitFields};
use iocm_types::UnitRange;
use std::alloc::{AllocError, Allocator};

/// A range of unit addresses that a unit has on one of its paths.
#[derive(Clone, Copy)]
pub struct LinkRange {
    /// The path, its link there and the CUADD, as one number.
    pub link: u64,
    /// The unit addresses.
    pub addresses: UnitRange,
}

/// The ranges that all units have on their paths: a row for each range on each path, however many
/// addresses it has.
///
/// `AllocError` (M1): memory ran out.
pub fn list_ranges<A: Allocator, B: Allocator + Copy>(
    alloc: B,
    config: &Config<A>,
) -> Result<Vec<LinkRange, B>, AllocError>
    ensures { IfOk result (λ listed. listed.items ≡ flat_map model.link_ranges (records_of config.now.records)) }
{
    let mut listed = Vec::new(alloc);
    for entry in records_of_kind(config, RecordKind::Unit) {
        ranges_of_record(alloc, &mut listed, entry)?;
    }
    Ok(listed)
}

/// Puts the ranges of a unit on its paths behind those that are listed; other records have none.
fn ranges_of_record<A: Allocator, B: Allocator>(
    alloc: B,
    listed: &mut Vec<LinkRange, B>,
    entry: &Record<A>,
) -> Result<(), AllocError>
    ensures { OnOk result (listed.new.items ≡ listed.old.items ++ model.link_ranges entry.now) }
{
    match entry.body() {
        RecordBody::Unit(fields) => ranges_of_unit(alloc, listed, fields),
        _ => Ok(()),
    }
}

fn ranges_of_unit<A: Allocator, B: Allocator>(
    alloc: B,
    listed: &mut Vec<LinkRange, B>,
    fields: &UnitFields<A>,
) -> Result<(), AllocError>
    ensures { OnOk result (listed.new.items ≡ listed.old.items ++ model.link_ranges (unit (unit_of fields.now))) }
{
    let mut links = Vec::new(alloc);
    list_of_unit(&mut links, fields)?;
    for link in links.as_slice() {
        ranges_on_link(listed, *link, fields.ranges.as_slice())?;
    }
    Ok(())
}

/// Puts these ranges on a link behind those that are listed.
fn ranges_on_link<B: Allocator>(
    listed: &mut Vec<LinkRange, B>,
    link: u64,
    ranges: &[UnitRange],
) -> Result<(), AllocError>
    ensures { OnOk result (listed.new.items ≡ listed.old.items ++ model.ranges_on ranges.now link) }
{
    for range in ranges {
        listed.push(LinkRange {
            link,
            addresses: *range,
        })?;
    }
    Ok(())
}

/// Whether the ranges are seen to be apart: then no two of them have a link and a unit address in
/// common. They are sorted first, so one walk over them tells. Ranges that are apart are seen to be
/// so, unless one has no address at all.
///
/// `AllocError` (M1): memory ran out.
pub fn are_apart<A: Allocator>(mut ranges: Vec<LinkRange, A>) -> Result<bool, AllocError>
    ensures apart { IfOk result (λ apart. apart ≡ true → model.any_meet ranges.items ≡ false) }
    ensures seen { IfOk result (λ apart. All (λ r. 0 < r.addresses.count) ranges.items
        → model.any_meet ranges.items ≡ false → apart ≡ true) }
{
    ranges.sort_by_key(|range| (range.link, range.addresses.start))?;
    Ok(do_follow(ranges.as_slice()))
}

/// Whether each of these ranges is behind the one before.
fn do_follow(ranges: &[LinkRange]) -> bool
    ensures { result ≡ model.do_follow ranges.now }
{
    match ranges {
        [first, rest @ ..] => do_follow_behind(*first, rest),
        [] => true,
    }
}

/// Whether the first of these ranges is behind another, and each further one behind the one before.
#[tactic(auto, using(crate::proofs::RangesApart::following_steps))]
fn do_follow_behind(first: LinkRange, ranges: &[LinkRange]) -> bool
    ensures { result ≡ model.do_follow_behind first ranges.now }
{
    let mut last = first;
    for range in ranges {
        if !is_behind(*range, last) {
            return false;
        }
        last = *range;
    }
    true
}

/// Whether a range is behind another: on a greater link, or on the same past all its addresses.
fn is_behind(range: LinkRange, last: LinkRange) -> bool
    ensures { result ≡ model.is_behind last range }
{
    last.link < range.link
        || (last.link == range.link && end_of(last.addresses) <= usize::from(range.addresses.start))
}
