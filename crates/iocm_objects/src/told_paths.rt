ghost use Rattle.std.specs.Prelude.{◌≡◌, ◌++◌, map, IfOk, OnOk};
ghost use Rattle.iocm_objects.specs.ToldPaths as meaning;

use crate::differing::{arrow_text, went_and_came};
use crate::path_texts::{link_text, path_text, paths_text};
use crate::told::{Told, put_words};
use iocm_types::{CssPath, Text};
use iocm_values::printed;
use iocm_words::{LinkedPath, Member, group_words, groups_of};
use std::alloc::{AllocError, Global};

/// Puts what is told of the paths of a control unit before and after behind others. The time is that of both counts,
/// multiplied.
pub(crate) fn put_paths(
    told: &mut Vec<Told>,
    alloc: Global,
    old: &[LinkedPath],
    new: &[LinkedPath],
) -> Result<(), AllocError>
    ensures { OnOk result (told.new.items ≡ told.old.items ++ meaning.told_paths old.now new.now) }
{
    put_places(told, alloc, old, new)?;
    let members = link_members(alloc, old, new)?;
    let groups = groups_of(alloc, &members)?;
    put_links(told, alloc, &members, &groups)
}

/// Puts the paths that went and came behind others, or all paths where those that stay are in another order.
fn put_places(
    told: &mut Vec<Told>,
    alloc: Global,
    old: &[LinkedPath],
    new: &[LinkedPath],
) -> Result<(), AllocError>
    ensures { OnOk result (told.new.items ≡ told.old.items ++ meaning.told_places old.now new.now) }
{
    if keep_order(alloc, old, new)? {
        return put_moves(told, alloc, old, new);
    }
    let before = paths_text(alloc, old)?;
    let after = paths_text(alloc, new)?;
    let text = arrow_text(alloc, b"PATH", before.as_slice(), after.as_slice())?;
    put_words(told, alloc, b"PATH", text)
}

/// Puts the paths that went and came behind others, if there are any.
fn put_moves(
    told: &mut Vec<Told>,
    alloc: Global,
    old: &[LinkedPath],
    new: &[LinkedPath],
) -> Result<(), AllocError>
    ensures { OnOk result (told.new.items ≡ told.old.items
        ++ meaning.moves (meaning.texts_without new.now old.now) (meaning.texts_without old.now new.now)) }
{
    let went = texts_without(alloc, new, old)?;
    let came = texts_without(alloc, old, new)?;
    if went.is_empty() && came.is_empty() {
        return Ok(());
    }
    let text = went_and_came(alloc, b"PATH", &went, &came)?;
    put_words(told, alloc, b"PATH", text)
}

/// Whether the paths that stay do so in their order.
fn keep_order(alloc: Global, old: &[LinkedPath], new: &[LinkedPath]) -> Result<bool, AllocError>
    ensures { IfOk result (λ same. same ≡ meaning.keep_order old.now new.now) }
{
    let before = kept(alloc, new, old)?;
    let after = kept(alloc, old, new)?;
    Ok(before.as_slice() == after.as_slice())
}

/// The places of the paths that are among others.
fn kept(
    alloc: Global,
    others: &[LinkedPath],
    paths: &[LinkedPath],
) -> Result<Vec<CssPath>, AllocError>
    ensures { IfOk result (λ places. places.items ≡ meaning.kept others.now paths.now) }
{
    paths
        .iter()
        .filter_map(|path| kept_place(others, path))
        .collect(alloc)
}

/// The place of a path, if it is among others.
fn kept_place(others: &[LinkedPath], path: &LinkedPath) -> Option<CssPath>
    ensures { result ≡ meaning.kept_place others.now path.now }
{
    at_place(path, others)?;
    let (css, path) = (path.css, path.path);
    Some(CssPath { css, path })
}

/// The texts of the paths that aren't among others.
fn texts_without(
    alloc: Global,
    others: &[LinkedPath],
    paths: &[LinkedPath],
) -> Result<Vec<Text>, AllocError>
    ensures { IfOk result (λ texts. texts.items ≡ meaning.texts_without others.now paths.now) }
{
    let mut texts = Vec::new(alloc);
    for path in paths {
        if at_place(path, others).is_some() {
            continue;
        }
        texts.push(path_text(alloc, *path)?)?;
    }
    Ok(texts)
}

/// The first among paths that is at the place of another, if there is one.
fn at_place(path: &LinkedPath, paths: &[LinkedPath]) -> Option<LinkedPath>
    ensures { result ≡ meaning.at_place path.now paths.now }
{
    for other in paths {
        if other.css == path.css && other.path == path.path {
            return Some(*other);
        }
    }
    None
}

/// The paths that stay with another link, each with what is told of its link.
fn link_members(
    alloc: Global,
    old: &[LinkedPath],
    new: &[LinkedPath],
) -> Result<Vec<Member>, AllocError>
    ensures { IfOk result (λ members. members.items ≡ meaning.link_members new.now old.now) }
{
    let mut members = Vec::new(alloc);
    for path in old {
        put_if_kept(&mut members, alloc, *path, at_place(path, new))?;
    }
    Ok(members)
}

/// Puts a path behind others, if it stays with another link.
fn put_if_kept(
    members: &mut Vec<Member>,
    alloc: Global,
    path: LinkedPath,
    other: Option<LinkedPath>,
) -> Result<(), AllocError>
    ensures { OnOk result (members.new.items ≡ members.old.items ++ meaning.link_member_if path other) }
{
    let Some(other) = other else {
        return Ok(());
    };
    if path.link == other.link {
        return Ok(());
    }
    let number = path.path;
    let word = printed(alloc, &path.css)?;
    let name = format!(in alloc; ".{number}")?;
    let old = link_text(alloc, path.link)?;
    let new = link_text(alloc, other.link)?;
    let group = arrow_text(alloc, name.as_bytes(), old.as_slice(), new.as_slice())?;
    members.push(Member { word, group })?;
    Ok(())
}

/// Puts what is told of links behind others.
fn put_links(
    told: &mut Vec<Told>,
    alloc: Global,
    members: &[Member],
    groups: &[Text],
) -> Result<(), AllocError>
    ensures { OnOk result (told.new.items
        ≡ told.old.items ++ map (meaning.told_link members.now) groups.now) }
{
    for group in groups {
        put_words(told, alloc, b"LINK", link_words(alloc, members, group)?)?;
    }
    Ok(())
}

/// What is told of the links of a group.
fn link_words(alloc: Global, members: &[Member], group: &Text) -> Result<Text, AllocError>
    ensures { IfOk result (λ text. text ≡ meaning.link_words members.now group.now) }
{
    let words = group_words(alloc, members, group)?;
    let mut text = Vec::from_slice(alloc, b"LINK ")?;
    text.extend_from_slice(words.as_slice())?;
    text.extend_from_slice(group.as_slice())?;
    Ok(Text::from_vec(text))
}
