ghost use Rattle.std.specs.Prelude.{◌≡◌, ◌++◌, IfOk, OnOk};
ghost use Rattle.iocm_objects.specs.Paths as meaning;

use iocm_lookup::subsystems;
use iocm_types::{Css, Link, Text};
use iocm_values::{comma_text, printed};
use iocm_words::{LinkedPath, Member, group_words, groups_of, joined_word};
use std::alloc::{AllocError, Global};

/// A link as it is written, `**` for none; `none` where nothing is written.
pub(crate) fn link_text(alloc: Global, link: Option<Link>) -> Result<Text, AllocError>
    ensures { IfOk result (λ text. text ≡ meaning.link_text link) }
{
    let text = match link {
        None => return Text::from_slice(alloc, b"none"),
        Some(Link::None) => return Text::from_slice(alloc, b"**"),
        Some(Link::Short(link)) => format!(in alloc; "{link:02X}")?,
        Some(Link::Long(link)) => format!(in alloc; "{link:04X}")?,
    };
    Ok(Text::from_vec(text.into_bytes()))
}

/// A path and its link behind a slash, if one is written.
fn item_text(alloc: Global, path: LinkedPath) -> Result<Text, AllocError>
    ensures { IfOk result (λ text. text ≡ meaning.item_text path) }
{
    let number = path.path;
    let text = match path.link {
        None => format!(in alloc; "{number}")?,
        Some(Link::None) => format!(in alloc; "{number}/**")?,
        Some(Link::Short(link)) => format!(in alloc; "{number}/{link:02X}")?,
        Some(Link::Long(link)) => format!(in alloc; "{number}/{link:04X}")?,
    };
    Ok(Text::from_vec(text.into_bytes()))
}

/// A path with its channel subsystem.
pub(crate) fn path_text(alloc: Global, path: LinkedPath) -> Result<Text, AllocError>
    ensures { IfOk result (λ text. text ≡ meaning.path_text path) }
{
    let css = path.css;
    let item = item_text(alloc, path)?;
    let mut text = format!(in alloc; "{css}.")?.into_bytes();
    text.extend_from_slice(item.as_slice())?;
    Ok(Text::from_vec(text))
}

/// The paths of a channel subsystem.
fn items_in(alloc: Global, paths: &[LinkedPath], css: Css) -> Result<Vec<Text>, AllocError>
    ensures { IfOk result (λ items. items.items ≡ meaning.items_in paths.now css) }
{
    let mut items = Vec::new(alloc);
    for path in paths {
        if path.css != css {
            continue;
        }
        items.push(item_text(alloc, *path)?)?;
    }
    Ok(items)
}

/// Puts a channel subsystem behind those with paths, if it has some.
fn put_member(
    members: &mut Vec<Member>,
    alloc: Global,
    paths: &[LinkedPath],
    css: Css,
) -> Result<(), AllocError>
    ensures { OnOk result (members.new.items ≡ members.old.items ++ meaning.member_of paths.now css) }
{
    let items = items_in(alloc, paths, css)?;
    if items.is_empty() {
        return Ok(());
    }
    let word = printed(alloc, &css)?;
    let group = comma_text(alloc, &items)?;
    members.push(Member { word, group })?;
    Ok(())
}

/// The channel subsystems that have paths.
fn members_of(alloc: Global, paths: &[LinkedPath]) -> Result<Vec<Member>, AllocError>
    ensures { IfOk result (λ members. members.items ≡ meaning.members_of paths.now) }
{
    let all = subsystems();
    let mut members = Vec::new(alloc);
    for css in all.as_slice() {
        put_member(&mut members, alloc, paths, *css)?;
    }
    Ok(members)
}

/// The channel subsystems of a group, a colon, and their paths.
fn group_text(alloc: Global, members: &[Member], group: &Text) -> Result<Text, AllocError>
    ensures { IfOk result (λ text. text ≡ meaning.group_text members.now group.now) }
{
    let words = group_words(alloc, members, group)?;
    let mut text = Vec::new(alloc);
    text.extend_from_slice(words.as_slice())?;
    text.push(b':')?;
    text.extend_from_slice(group.as_slice())?;
    Ok(Text::from_vec(text))
}

/// Paths by channel subsystem, as `0,1:40/6512,41;2:50`; channel subsystems with equal paths are told together.
pub(crate) fn paths_text(alloc: Global, paths: &[LinkedPath]) -> Result<Text, AllocError>
    ensures { IfOk result (λ text. text ≡ meaning.paths_text paths.now) }
{
    let members = members_of(alloc, paths)?;
    let groups = groups_of(alloc, &members)?;
    let mut texts = Vec::new(alloc);
    for group in groups.as_slice() {
        texts.push(group_text(alloc, &members, group)?)?;
    }
    Ok(Text::from_vec(joined_word(alloc, &texts, b';')?))
}
