ghost use Rattle.std.specs.Prelude.{◌≡◌};
ghost use Rattle.std.specs.Option.{option_copied, option_eq};
ghost use Rattle.iocm_model.specs.Machine.Record as model;
ghost use Rattle.iocm_record.specs.Meaning.{path_of, unit_of, device_of};
ghost use Rattle.iocm_difference.specs.Same as specs;

use iocm_record::{Carried, DeviceFields, PathFields, Record, RecordBody, UnitFields};
use iocm_types::{Chpid, Css, List, Mif, Name, PathKind, SetNo, Text};
use std::alloc::Allocator;

/// Whether two records are the same, carried operands included.
pub fn is_same_record<A: Allocator, B: Allocator>(old: &Record<A>, new: &Record<B>) -> bool
    ensures { result ≡ specs.same_record old.now new.now }
{
    match old.body() {
        RecordBody::Id(carried) => is_id(carried, new),
        RecordBody::Resource(carried) => is_resource(carried, new),
        RecordBody::Image(css, mif, name) => is_image(*css, *mif, *name, new),
        RecordBody::Limit(css, set, limit) => is_limit(*css, *set, *limit, new),
        RecordBody::Path(path) => is_path(path, new),
        RecordBody::Unit(unit) => is_unit(unit, new),
        RecordBody::Device(device) => is_device(device, new),
        RecordBody::Online(css, path, name) => is_online(*css, *path, *name, new),
    }
}

/// Whether a record is that of an ID statement which carries these operands.
fn is_id<A: Allocator, B: Allocator>(carried: &[Carried<A>], new: &Record<B>) -> bool
    ensures { result ≡ specs.same_record (model.id carried.now) new.now }
{
    match new.body() {
        RecordBody::Id(others) => are_same_operands(carried, others),
        _ => false,
    }
}

/// Whether a record is that of a RESOURCE statement which carries these operands.
fn is_resource<A: Allocator, B: Allocator>(carried: &[Carried<A>], new: &Record<B>) -> bool
    ensures { result ≡ specs.same_record (model.resource carried.now) new.now }
{
    match new.body() {
        RecordBody::Resource(others) => are_same_operands(carried, others),
        _ => false,
    }
}

/// Whether a record is that of this image.
fn is_image<B: Allocator>(css: Css, mif: Mif, name: Name, new: &Record<B>) -> bool
    ensures { result ≡ specs.same_record (model.image (record { css = css; mif = mif; name = name })) new.now }
{
    match new.body() {
        RecordBody::Image(its_css, its_mif, its_name) => {
            css == *its_css && mif == *its_mif && name == *its_name
        }
        _ => false,
    }
}

/// Whether a record is this limit.
fn is_limit<B: Allocator>(css: Css, set: SetNo, limit: u16, new: &Record<B>) -> bool
    ensures { result ≡ specs.same_record (model.limit (record { css = css; set = set; limit = limit })) new.now }
{
    match new.body() {
        RecordBody::Limit(its_css, its_set, its_limit) => {
            css == *its_css && set == *its_set && limit == *its_limit
        }
        _ => false,
    }
}

/// Whether a record is that of this path.
fn is_path<A: Allocator, B: Allocator>(path: &PathFields<A>, new: &Record<B>) -> bool
    ensures { result ≡ specs.same_record (model.path (path_of path.now)) new.now }
{
    match new.body() {
        RecordBody::Path(other) => is_same_path(path, other),
        _ => false,
    }
}

/// Whether a record is that of this control unit.
fn is_unit<A: Allocator, B: Allocator>(unit: &UnitFields<A>, new: &Record<B>) -> bool
    ensures { result ≡ specs.same_record (model.unit (unit_of unit.now)) new.now }
{
    match new.body() {
        RecordBody::Unit(other) => is_same_unit(unit, other),
        _ => false,
    }
}

/// Whether a record is that of this device.
fn is_device<A: Allocator, B: Allocator>(device: &DeviceFields<A>, new: &Record<B>) -> bool
    ensures { result ≡ specs.same_record (model.device (device_of device.now)) new.now }
{
    match new.body() {
        RecordBody::Device(other) => is_same_device(device, other),
        _ => false,
    }
}

/// Whether a record is this online pair.
fn is_online<B: Allocator>(css: Css, path: Chpid, name: Name, new: &Record<B>) -> bool
    ensures { result ≡ specs.same_record (model.online (record { css = css; path = path; name = name })) new.now }
{
    match new.body() {
        RecordBody::Online(its_css, its_path, its_name) => {
            css == *its_css && path == *its_path && name == *its_name
        }
        _ => false,
    }
}

/// Whether two paths are the same.
fn is_same_path<A: Allocator, B: Allocator>(old: &PathFields<A>, new: &PathFields<B>) -> bool
    ensures { result ≡ specs.same_path (path_of old.now) (path_of new.now) }
{
    old.css == new.css
        && old.number == new.number
        && is_same_kind(old.kind, new.kind)
        && old.access.as_slice() == new.access.as_slice()
        && old.candidates.as_slice() == new.candidates.as_slice()
        && are_same_operands(&old.carried, &new.carried)
}

/// Whether two control units are the same.
fn is_same_unit<A: Allocator, B: Allocator>(old: &UnitFields<A>, new: &UnitFields<B>) -> bool
    ensures { result ≡ specs.same_unit (unit_of old.now) (unit_of new.now) }
{
    old.number == new.number
        && old.paths.as_slice() == new.paths.as_slice()
        && old.ranges.as_slice() == new.ranges.as_slice()
        && old.links.as_slice() == new.links.as_slice()
        && old.cuadd == new.cuadd
        && are_same_operands(&old.carried, &new.carried)
}

/// Whether two devices are the same.
fn is_same_device<A: Allocator, B: Allocator>(old: &DeviceFields<A>, new: &DeviceFields<B>) -> bool
    ensures { result ≡ specs.same_device (device_of old.now) (device_of new.now) }
{
    old.set == new.set
        && old.number == new.number
        && old.lists.units() == new.lists.units()
        && old.unit_address == new.unit_address
        && are_same_candidates(old.lists.candidates(), new.lists.candidates())
        && are_same_operands(old.lists.carried(), new.lists.carried())
}

/// Whether images use two paths in the same way.
fn is_same_kind(old: PathKind, new: PathKind) -> bool
    ensures { result ≡ specs.same_kind old new }
{
    old == new
}

/// Whether there are the same names, or no list of them.
pub fn are_same_candidates<A: Allocator, B: Allocator>(
    old: Option<&List<Name, A>>,
    new: Option<&List<Name, B>>,
) -> bool
    ensures { result ≡ option_eq specs.same_names (option_copied old.entry) (option_copied new.entry) }
{
    match (old, new) {
        (Some(names), Some(others)) => names.as_slice() == others.as_slice(),
        (None, None) => true,
        _ => false,
    }
}

/// Whether there are the same carried operands in the same order.
#[tactic(auto, using(crate::proofs::SameLists::same_steps))]
pub fn are_same_operands<A: Allocator, B: Allocator>(old: &[Carried<A>], new: &[Carried<B>]) -> bool
    ensures { result ≡ specs.same_operands old.now new.now }
{
    if old.len() != new.len() {
        return false;
    }
    for index in 0..old.len() {
        if !is_same_operand(&old[index], &new[index]) {
            return false;
        }
    }
    true
}

/// Whether two carried operands are the same.
fn is_same_operand<A: Allocator, B: Allocator>(old: &Carried<A>, new: &Carried<B>) -> bool
    ensures { result ≡ specs.same_operand old.now new.now }
{
    is_same_keyword(old.keyword(), new.keyword()) && old.text().as_slice() == new.text().as_slice()
}

/// Whether there is the same keyword, or none.
fn is_same_keyword<A: Allocator, B: Allocator>(old: Option<&Text<A>>, new: Option<&Text<B>>) -> bool
    ensures { result ≡ option_eq specs.same_name (option_copied old.entry) (option_copied new.entry) }
{
    match (old, new) {
        (Some(keyword), Some(other)) => keyword.as_slice() == other.as_slice(),
        (None, None) => true,
        _ => false,
    }
}
