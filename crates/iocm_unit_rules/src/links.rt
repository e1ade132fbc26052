ghost use Rattle.std.specs.Prelude.{◌≡◌, ◌≤◌, ◌&&◌, ◌==◌, get_or, if◌then◌else◌};
ghost use Rattle.std.specs.List.{list_any};
ghost use Rattle.iocm_types.specs.declared.link.Link.TheVariants as link;
ghost use Rattle.iocm_model.specs.Rules.EachRule as model;
ghost use Rattle.iocm_model.specs.Machine.Numbering as numbering;
ghost use Rattle.iocm_record.specs.Meaning.{unit_of};
ghost use Rattle.iocm_unit_rules.specs.Links as unit_links;

use iocm_lookup::subsystems;
use iocm_record::UnitFields;
use iocm_types::{Chpid, Css, CssLink, CssPath, Link};
use std::alloc::Allocator;

/// Whether two units share a path on which both have the same link.
#[tactic(auto, using(iocm_types::proofs::Any::any_steps))]
pub fn shares_link<A: Allocator>(fields: &UnitFields<A>, other: &UnitFields<A>) -> bool
    ensures { result ≡ model.share_link (unit_of fields.now) (unit_of other.now) }
{
    let all = subsystems();
    for css in all.as_slice() {
        if shares_link_in(*css, fields, other) {
            return true;
        }
    }
    false
}

/// Whether two units share a path of a channel subsystem on which both have the same link.
fn shares_link_in<A: Allocator>(css: Css, fields: &UnitFields<A>, other: &UnitFields<A>) -> bool
    ensures { result ≡ list_any (unit_links.is_on_link css (unit_of other.now))
        (model.linked_paths css (unit_of fields.now)) }
{
    let links = fields.links.as_slice();
    let mut ordinal = 0;
    for path in fields.paths.as_slice() {
        if is_path_shared(css, *path, link_at(css, ordinal, links), other) {
            return true;
        }
        ordinal += step(path.css == css);
    }
    false
}

/// Whether a path is of a channel subsystem, and a unit has it with this link.
fn is_path_shared<A: Allocator>(css: Css, path: CssPath, link: Link, other: &UnitFields<A>) -> bool
    ensures { result ≡ ((path.css == css) && unit_links.is_on_link css (unit_of other.now) (path.path, link)) }
{
    path.css == css && is_linked(css, path.path, link, other)
}

/// Whether a unit has a path of a channel subsystem with this link.
fn is_linked<A: Allocator>(css: Css, number: Chpid, link: Link, fields: &UnitFields<A>) -> bool
    ensures { result ≡ unit_links.is_on_link css (unit_of fields.now) (number, link) }
{
    let links = fields.links.as_slice();
    let mut ordinal = 0;
    for path in fields.paths.as_slice() {
        if is_path_linked(css, *path, ordinal, links, number, link) {
            return true;
        }
        ordinal += step(path.css == css);
    }
    false
}

/// Whether a path is that of this number of a channel subsystem, and the link at its place is this
/// one.
fn is_path_linked(
    css: Css,
    path: CssPath,
    place: usize,
    links: &[CssLink],
    number: Chpid,
    wanted: Link,
) -> bool
    ensures { result ≡ ((path.css == css) && ((number == path.path)
        && model.same_link wanted (get_or (model.links_in css links.now) place link.None))) }
{
    path.css == css && number == path.path && same_link(wanted, link_at(css, place, links))
}

/// Whether two units have a path with the same link.
pub fn is_on_one_link<A: Allocator>(
    path: &CssPath,
    fields: &UnitFields<A>,
    other: &UnitFields<A>,
) -> bool
    ensures { result ≡ unit_links.share_link_on path.now.css path.now.path (unit_of fields.now) (unit_of other.now) }
{
    let links = fields.links.as_slice();
    let mut ordinal = 0;
    for own in fields.paths.as_slice() {
        if is_on_its_link(path, *own, ordinal, links, other) {
            return true;
        }
        ordinal += step(own.css == path.css);
    }
    false
}

/// Whether a path is this one, and a unit has it with the link at its place.
fn is_on_its_link<A: Allocator>(
    path: &CssPath,
    own: CssPath,
    place: usize,
    links: &[CssLink],
    other: &UnitFields<A>,
) -> bool
    ensures { result ≡ ((own.css == path.now.css) && ((path.now.path == own.path)
        && unit_links.is_on_link path.now.css (unit_of other.now)
        (own.path, get_or (model.links_in path.now.css links.now) place link.None))) }
{
    own.css == path.css
        && path.path == own.path
        && is_linked(path.css, own.path, link_at(path.css, place, links), other)
}

// How far a path goes on among the links of its channel subsystem.
pub fn step(is_in: bool) -> usize
    ensures value { result ≡ (if is_in then 1 else 0) }
    ensures small { result ≤ 1 }
{
    if is_in { 1 } else { 0 }
}

/// The link at a place, counted from 0, of those in a channel subsystem; past the end there is
/// none.
pub fn link_at(css: Css, place: usize, links: &[CssLink]) -> Link
    ensures { result ≡ get_or (model.links_in css links.now) place link.None }
{
    let mut left = place;
    for link in links {
        if link.css == css && left == 0 {
            return link.link;
        }
        left -= usize::from(link.css == css);
    }
    Link::None
}

/// Whether two links are one.
fn same_link(link: Link, other: Link) -> bool
    ensures { result ≡ model.same_link link other }
{
    match (link, other) {
        (Link::None, Link::None) => true,
        (Link::Short(link), Link::Short(other)) => link == other,
        (Link::Long(link), Link::Long(other)) => link == other,
        _ => false,
    }
}
