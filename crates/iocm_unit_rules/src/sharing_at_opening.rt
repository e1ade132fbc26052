ghost use Rattle.std.specs.Prelude.{◌≡◌, ◌<◌, ◌++◌, None, IfOk, OnOk};
ghost use Rattle.std.specs.List.{flat_map};
ghost use Rattle.iocm_model.specs.Machine.Configuration.{records_of};
ghost use Rattle.iocm_model.specs.Machine.Record.{unit};
ghost use Rattle.iocm_model.specs.Rules.EachRule.{breaks_v5, breaks_v14};
ghost use Rattle.iocm_model.specs.Rules.FirstBreach.{first_record};
ghost use Rattle.iocm_record.specs.Meaning.{unit_of};
ghost use Rattle.iocm_lookup.specs.First.{first_key};
ghost use Rattle.iocm_unit_rules.specs.LinkNumbers as numbers;

use crate::link_ranges::{are_apart, list_ranges};
use crate::links::{link_at, step};
use crate::sharing::{cuadd_or_zero, first_shared_address};
use iocm_config::Config;
use iocm_lookup::{RecordKind, index_of, is_any_twice, records_of_kind, subsystems};
use iocm_record::{Record, RecordBody, UnitFields};
use iocm_types::{Chpid, Css, CssPath, Key, Link};
use std::alloc::{AllocError, Allocator};

/// V14 where there is no index yet: the key of the first unit that breaks it, if one does; V5 is
/// kept. The addresses of all units on their paths are listed, and where none is there twice, no
/// unit breaks the rule. Else two units share a link and a CUADD, which is no breach where their
/// ranges are apart. So the ranges on all links are listed next, and where no two meet, no unit
/// breaks the rule either. Else `first_shared_address` answers by an index that is made for it.
///
/// `AllocError` (M1): memory ran out.
pub fn first_shared_address_at_opening<A: Allocator, B: Allocator + Copy>(
    alloc: B,
    config: &Config<A>,
) -> Result<Option<Key>, AllocError>
    requires { first_record (breaks_v5 config.now.records) (records_of config.now.records) ≡ None }
    ensures { IfOk result (λ key. key ≡ first_key (breaks_v14 config.now.records) config.now.records) }
{
    config.has_own_keys();
    let listed = list_numbers(alloc, config)?;
    if !is_any_twice(listed)? {
        return Ok(None);
    }
    let ranges = list_ranges(alloc, config)?;
    if are_apart(ranges)? {
        return Ok(None);
    }
    let index = index_of(alloc, config)?;
    Ok(first_shared_address(config, &index))
}

/// The addresses of all units on their paths.
fn list_numbers<A: Allocator, B: Allocator>(
    alloc: B,
    config: &Config<A>,
) -> Result<Vec<u64, B>, AllocError>
    ensures { IfOk result (λ listed. listed.items ≡ flat_map numbers.link_numbers (records_of config.now.records)) }
{
    let mut listed = Vec::new(alloc);
    for entry in records_of_kind(config, RecordKind::Unit) {
        list_of_record(&mut listed, entry)?;
    }
    Ok(listed)
}

/// Puts the addresses of a unit behind those that are listed; other records have none.
fn list_of_record<A: Allocator, B: Allocator>(
    listed: &mut Vec<u64, B>,
    entry: &Record<A>,
) -> Result<(), AllocError>
    ensures { OnOk result (listed.new.items ≡ listed.old.items ++ numbers.link_numbers entry.now) }
{
    match entry.body() {
        RecordBody::Unit(fields) => list_of_unit(listed, fields),
        _ => Ok(()),
    }
}

/// Puts the addresses of a unit's fields behind those that are listed.
pub fn list_of_unit<A: Allocator, B: Allocator>(
    listed: &mut Vec<u64, B>,
    fields: &UnitFields<A>,
) -> Result<(), AllocError>
    ensures { OnOk result (listed.new.items ≡ listed.old.items ++ numbers.link_numbers (unit (unit_of fields.now))) }
{
    let all = subsystems();
    for css in all.as_slice() {
        list_in_subsystem(listed, *css, fields)?;
    }
    Ok(())
}

/// Puts a unit's addresses in a channel subsystem behind those that are listed.
fn list_in_subsystem<A: Allocator, B: Allocator>(
    listed: &mut Vec<u64, B>,
    css: Css,
    fields: &UnitFields<A>,
) -> Result<(), AllocError>
    ensures { OnOk result (listed.new.items ≡ listed.old.items ++ numbers.numbers_in (unit_of fields.now) css) }
{
    let mut ordinal = 0;
    for path in fields.paths.as_slice() {
        list_on_path(listed, css, *path, ordinal, fields)?;
        ordinal += step(path.css == css);
    }
    Ok(())
}

/// Puts a unit's address on a path behind those that are listed, where the path is of a channel
/// subsystem. Its link is at this place of those there.
fn list_on_path<A: Allocator, B: Allocator>(
    listed: &mut Vec<u64, B>,
    css: Css,
    path: CssPath,
    place: usize,
    fields: &UnitFields<A>,
) -> Result<(), AllocError>
    ensures { OnOk result (listed.new.items
        ≡ listed.old.items ++ numbers.number_if_on css (unit_of fields.now) path place) }
{
    if path.css != css {
        return Ok(());
    }
    let link = link_at(css, place, fields.links.as_slice());
    listed.push(number_on(css, path.path, link, cuadd_or_zero(fields)))?;
    Ok(())
}

/// The number of a path of a channel subsystem with a link, for a CUADD.
fn number_on(css: Css, path: Chpid, link: Link, cuadd: u8) -> u64
    ensures { result ≡ numbers.number_on css cuadd (path, link) }
{
    let css_path = u64::from(css.number()) * 256 + u64::from(path.number());
    (css_path * 262144 + link_number(link)) * 256 + u64::from(cuadd)
}

/// A link as a number: none, then those of two digits, then those of four.
fn link_number(link: Link) -> u64
    ensures value { result ≡ numbers.link_number link }
    ensures small { result < 262144 }
{
    match link {
        Link::None => 0,
        Link::Short(address) => 65536 + u64::from(address),
        Link::Long(address) => 131072 + u64::from(address),
    }
}
