ghost use Rattle.std.specs.Prelude.{◌≡◌, ◌++◌, ◌∷◌, map, IfOk};
ghost use Rattle.iocm_words.specs.Images as meaning;
ghost use Rattle.iocm_words.specs.Words.{joined_word};

use crate::groups::{Member, group_words, groups_of};
use crate::words::joined_word;
use iocm_types::{Name, Text};
use std::alloc::{AllocError, Global};

/// An image that sees devices, and how many paths it has to them.
#[derive(Clone, Copy, PartialEq, Eq)]
pub struct ImagePaths {
    /// How many paths are online.
    pub online: u32,
    /// How many paths are installed.
    pub installed: u32,
    /// The image's name.
    pub name: Name,
}

fn counts_text(alloc: Global, image: &ImagePaths) -> Result<Text, AllocError>
    ensures { IfOk result (λ text. text ≡ meaning.counts_word image.now) }
{
    let online = image.online;
    let installed = image.installed;
    let text = format!(in alloc; "{online}/{installed}")?;
    Ok(Text::from_vec(text.into_bytes()))
}

fn members_of(alloc: Global, images: &[ImagePaths]) -> Result<Vec<Member>, AllocError>
    ensures { IfOk result (λ members. members.items ≡ meaning.members_of images.now) }
{
    let mut members = Vec::new(alloc);
    for image in images {
        let word = Text::from_slice(alloc, image.name.as_bytes())?;
        let group = counts_text(alloc, image)?;
        members.push(Member { word, group })?;
    }
    Ok(members)
}

/// A group with a word behind a colon.
fn with_word(alloc: Global, group: &Text, word: &[u8]) -> Result<Text, AllocError>
    ensures { IfOk result (λ text. text ≡ group.now ++ (58 ∷ word.now)) }
{
    let mut text = Vec::new(alloc);
    text.extend_from_slice(group.as_slice())?;
    text.push(b':')?;
    text.extend_from_slice(word)?;
    Ok(Text::from_vec(text))
}

fn by_groups(alloc: Global, members: &[Member], groups: &[Text]) -> Result<Vec<u8>, AllocError>
    ensures { IfOk result (λ word. word.items ≡ joined_word 59 (map (meaning.group_word members.now) groups.now)) }
{
    let mut words = Vec::new(alloc);
    for group in groups {
        let names = group_words(alloc, members, group)?;
        words.push(with_word(alloc, group, names.as_slice())?)?;
    }
    joined_word(alloc, &words, b';')
}

/// Images by how many paths they have online and installed, as `4/4:PRD1,PRD2;0/4:DEV1`; `-` if
/// there are none. Answers the lack of memory alone.
pub fn images_word(alloc: Global, images: &[ImagePaths]) -> Result<Vec<u8>, AllocError>
    ensures { IfOk result (λ word. word.items ≡ meaning.images_word images.now) }
{
    let members = members_of(alloc, images)?;
    let groups = groups_of(alloc, &members)?;
    by_groups(alloc, &members, &groups)
}

/// The same, of all images of several: `2/2:all` if they have as many paths as each other. Answers
/// the lack of memory alone.
pub fn all_images_word(alloc: Global, images: &[ImagePaths]) -> Result<Vec<u8>, AllocError>
    ensures { IfOk result (λ word. word.items ≡ meaning.all_images_word images.now) }
{
    let members = members_of(alloc, images)?;
    let groups = groups_of(alloc, &members)?;
    if groups.len() == 1 {
        let text = with_word(alloc, &groups[0], b"all")?;
        return Vec::from_slice(alloc, text.as_slice());
    }
    by_groups(alloc, &members, &groups)
}
