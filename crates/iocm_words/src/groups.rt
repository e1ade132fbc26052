ghost use Rattle.std.specs.Prelude.{◌≡◌, IfOk};
ghost use Rattle.std.specs.List.{join_with_byte};
ghost use Rattle.iocm_words.specs.Groups as meaning;

use iocm_types::Text;
use iocm_values::comma_text;
use std::alloc::{AllocError, Global};

/// A word, and the text of the group in which it is told.
#[derive(Drop)]
pub struct Member {
    /// The word, as the number of a channel subsystem.
    pub word: Text,
    /// What is told of the word, and once of all words of which it is told.
    pub group: Text,
}

fn is_among(groups: &[Text], group: &Text) -> bool
    ensures { result ≡ meaning.is_among groups.now group.now }
{
    groups.iter().any(|other| *other == *group)
}

/// The groups of some words, each once, in the order of their first words. Answers the lack of
/// memory alone.
pub fn groups_of(alloc: Global, members: &[Member]) -> Result<Vec<Text>, AllocError>
    ensures { IfOk result (λ groups. groups.items ≡ meaning.groups_of members.now) }
{
    let mut groups = Vec::new(alloc);
    for member in members {
        if is_among(&groups, &member.group) {
            continue;
        }
        groups.push(member.group.copy_in(alloc)?)?;
    }
    Ok(groups)
}

fn words_in(alloc: Global, members: &[Member], group: &Text) -> Result<Vec<Text>, AllocError>
    ensures { IfOk result (λ words. words.items ≡ meaning.words_in members.now group.now) }
{
    let mut words = Vec::new(alloc);
    for member in members {
        if member.group != *group {
            continue;
        }
        words.push(member.word.copy_in(alloc)?)?;
    }
    Ok(words)
}

/// The words of a group with commas between them. Answers the lack of memory alone.
pub fn group_words(alloc: Global, members: &[Member], group: &Text) -> Result<Text, AllocError>
    ensures { IfOk result (λ text. text ≡ join_with_byte 44 (meaning.words_in members.now group.now)) }
{
    let words = words_in(alloc, members, group)?;
    comma_text(alloc, &words)
}
