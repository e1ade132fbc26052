ghost use Rattle.std.specs.Prelude.{◌≡◌, ◌++◌, map, IfOk, OnOk};
ghost use Rattle.iocm_words.specs.Words.{joined_word};
ghost use Rattle.iocm_words.specs.Paths as meaning;

use crate::groups::{Member, group_words, groups_of};
use crate::words::joined_word;
use iocm_types::{Chpid, Css, Link, Text};
use iocm_values::{comma_text, printed, subsystem};
use std::alloc::{AllocError, Global};

/// A channel path, and how it reaches a control unit.
#[derive(Clone, Copy, PartialEq, Eq)]
pub struct LinkedPath {
    /// The channel subsystem.
    pub css: Css,
    /// The path's number there.
    pub path: Chpid,
    /// Its link, if it has one. It isn't told if it has none, or is written as two asterisks.
    pub link: Option<Link>,
}

fn linked_text(alloc: Global, linked: LinkedPath) -> Result<Text, AllocError>
    ensures { IfOk result (λ text. text ≡ meaning.linked_word linked) }
{
    let path = linked.path;
    let text = match linked.link {
        None | Some(Link::None) => format!(in alloc; "{path}")?,
        Some(Link::Short(link)) => format!(in alloc; "{path}/{link:02X}")?,
        Some(Link::Long(link)) => format!(in alloc; "{path}/{link:04X}")?,
    };
    Ok(Text::from_vec(text.into_bytes()))
}

fn words_in(alloc: Global, paths: &[LinkedPath], css: Css) -> Result<Vec<Text>, AllocError>
    ensures { IfOk result (λ words. words.items ≡ meaning.words_in paths.now css) }
{
    let mut words = Vec::new(alloc);
    for linked in paths {
        if linked.css != css {
            continue;
        }
        words.push(linked_text(alloc, *linked)?)?;
    }
    Ok(words)
}

/// Puts a channel subsystem behind those with paths, if it has some.
fn put_subsystem(
    alloc: Global,
    paths: &[LinkedPath],
    css: Css,
    members: &mut Vec<Member>,
) -> Result<(), AllocError>
    ensures { OnOk result (members.new.items ≡ members.old.items ++ meaning.member_of paths.now css) }
{
    let words = words_in(alloc, paths, css)?;
    if words.is_empty() {
        return Ok(());
    }
    let word = printed(alloc, &css)?;
    let group = comma_text(alloc, &words)?;
    members.push(Member { word, group })?;
    Ok(())
}

fn subsystems(alloc: Global, paths: &[LinkedPath]) -> Result<Vec<Member>, AllocError>
    ensures { IfOk result (λ members. members.items ≡ meaning.members_of paths.now) }
{
    let mut members = Vec::new(alloc);
    for number in 0..6 {
        put_subsystem(alloc, paths, subsystem(number), &mut members)?;
    }
    Ok(members)
}

/// The channel subsystems of a group, a colon, and their paths.
fn group_text(alloc: Global, members: &[Member], group: &Text) -> Result<Text, AllocError>
    ensures { IfOk result (λ text. text ≡ meaning.group_word members.now group.now) }
{
    let words = group_words(alloc, members, group)?;
    let mut text = Vec::new(alloc);
    text.extend_from_slice(words.as_slice())?;
    text.push(b':')?;
    text.extend_from_slice(group.as_slice())?;
    Ok(Text::from_vec(text))
}

fn by_groups(alloc: Global, members: &[Member], groups: &[Text]) -> Result<Vec<u8>, AllocError>
    ensures { IfOk result (λ word. word.items ≡ joined_word 59 (map (meaning.group_word members.now) groups.now)) }
{
    let mut words = Vec::new(alloc);
    for group in groups {
        words.push(group_text(alloc, members, group)?)?;
    }
    joined_word(alloc, &words, b';')
}

/// Paths by channel subsystem, as `0,1:40/6512,41/6612;2:50`: each has its link behind a slash, if
/// it has one, and channel subsystems with equal paths are told together. `-` if there are none.
/// Answers the lack of memory alone.
pub fn paths_word(alloc: Global, paths: &[LinkedPath]) -> Result<Vec<u8>, AllocError>
    ensures { IfOk result (λ word. word.items ≡ meaning.paths_word paths.now) }
{
    let members = subsystems(alloc, paths)?;
    let groups = groups_of(alloc, &members)?;
    by_groups(alloc, &members, &groups)
}
