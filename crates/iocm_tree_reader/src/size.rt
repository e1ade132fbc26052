ghost use Rattle.std.specs.Prelude.{◌≡◌, []};
ghost use Rattle.iocm_tree_reader.specs.Sizes as meaning;

use iocm_types::Rule;

/// How deep trees are and how many leaves they have, each counted up to 4294967295. The word is
/// own.
#[derive(Clone, Copy)]
pub struct Size {
    /// The depth: a leaf and a node without parts have 1.
    pub depth: u32,
    /// The leaves: a node without parts counts as one.
    pub leaves: u32,
}

/// The size of no trees.
pub fn size_of_none() -> Size
    ensures { result ≡ meaning.size_among [] }
{
    Size {
        depth: 0,
        leaves: 0,
    }
}

/// The size of a node without parts.
pub fn size_of_empty() -> Size
    ensures { result ≡ meaning.size_of_empty }
{
    Size {
        depth: 1,
        leaves: 1,
    }
}

/// The size of trees beside each other.
pub fn beside(first: Size, second: Size) -> Size
    ensures { result ≡ meaning.beside first second }
{
    Size {
        depth: if first.depth < second.depth {
            second.depth
        } else {
            first.depth
        },
        leaves: first.leaves.saturating_add(second.leaves),
    }
}

/// The size of a node whose parts have this size.
pub fn inside(parts: Size) -> Size
    ensures { result ≡ meaning.inside parts }
{
    Size {
        depth: parts.depth.saturating_add(1),
        leaves: if parts.leaves == 0 { 1 } else { parts.leaves },
    }
}

// The size of so many leaves beside each other.
fn size_of_leaves(count: usize) -> Size
    ensures { result ≡ meaning.size_of_leaves count }
{
    Size {
        depth: if count == 0 { 0 } else { 1 },
        leaves: if count < 4294967295 {
            count as u32
        } else {
            4294967295
        },
    }
}

/// The size of what so many edits give.
pub fn size_of_edits(count: usize) -> Size
    ensures { result ≡ meaning.size_of_edits count }
{
    let leaves = size_of_leaves(count);
    if count == 1 { leaves } else { inside(leaves) }
}

/// The limit that a size is over, if it is over one: C1 where it is deeper than 32, else C2 where
/// it has more than 4,096 leaves.
pub fn over(size: Size) -> Option<Rule>
    ensures { result ≡ meaning.over size }
{
    if size.depth > 32 {
        return Some(Rule::C1);
    }
    if size.leaves > 4096 {
        return Some(Rule::C2);
    }
    None
}
