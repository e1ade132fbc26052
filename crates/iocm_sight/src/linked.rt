ghost use Rattle.std.specs.Prelude.{◌≡◌, ◌++◌, IfOk, OnOk};
ghost use Rattle.iocm_model.specs.Machine.PathList as model;
ghost use Rattle.iocm_model.specs.Rules.EachRule as rules;
ghost use Rattle.iocm_record.specs.Meaning.{unit_of};
ghost use Rattle.iocm_sight.specs.Linked as meaning;

use iocm_lookup::subsystems;
use iocm_record::UnitFields;
use iocm_types::{Chpid, Css, CssLink, CssPath, Link};
use iocm_words::LinkedPath;
use std::alloc::{AllocError, Allocator, Global};

/// The paths of a control unit with their links, by channel subsystem.
///
/// `AllocError` (M1): memory ran out.
pub fn linked_paths<A: Allocator>(
    alloc: Global,
    unit: &UnitFields<A>,
) -> Result<Vec<LinkedPath>, AllocError>
    ensures { IfOk result (λ paths. paths.items ≡ meaning.linked_paths (unit_of unit.now)) }
{
    let all = subsystems();
    let mut listed = Vec::new(alloc);
    for css in all.as_slice() {
        put_linked(&mut listed, alloc, *css, unit)?;
    }
    Ok(listed)
}

/// Puts the paths of a control unit in a channel subsystem with their links behind others.
fn put_linked<A: Allocator>(
    listed: &mut Vec<LinkedPath>,
    alloc: Global,
    css: Css,
    unit: &UnitFields<A>,
) -> Result<(), AllocError>
    ensures { OnOk result (listed.new.items ≡ listed.old.items ++ meaning.linked_in (unit_of unit.now) css) }
{
    let links = links_in(alloc, css, unit.links.as_slice())?;
    let paths = paths_in(alloc, css, unit.paths.as_slice())?;
    put_with_links(listed, css, paths.as_slice(), links.as_slice())
}

/// The links of a channel subsystem among others, in their order.
fn links_in(alloc: Global, css: Css, links: &[CssLink]) -> Result<Vec<Link>, AllocError>
    ensures { IfOk result (λ found. found.items ≡ rules.links_in css links.now) }
{
    let mut found = Vec::new(alloc);
    for link in links {
        if link.css == css {
            found.push(link.link)?;
        }
    }
    Ok(found)
}

/// The paths of a channel subsystem among others, in their order.
fn paths_in(alloc: Global, css: Css, paths: &[CssPath]) -> Result<Vec<Chpid>, AllocError>
    ensures { IfOk result (λ found. found.items ≡ model.paths_in css paths.now) }
{
    let mut found = Vec::new(alloc);
    for path in paths {
        if path.css == css {
            found.push(path.path)?;
        }
    }
    Ok(found)
}

/// Puts paths of a channel subsystem, each with the link at its place, behind others.
fn put_with_links(
    listed: &mut Vec<LinkedPath>,
    css: Css,
    paths: &[Chpid],
    links: &[Link],
) -> Result<(), AllocError>
    ensures { OnOk result (listed.new.items ≡ listed.old.items
        ++ meaning.with_their_links css paths.now links.now) }
{
    for place in 0..paths.len() {
        let link = links.get(place).copied();
        let path = paths[place];
        listed.push(LinkedPath { css, path, link })?;
    }
    Ok(())
}
