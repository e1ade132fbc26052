ghost use Rattle.std.specs.Prelude.{◌≡◌, ◌+◌, ◌<◌, ◌++◌, ◌∷◌, ◌^◌, [], min, IfOk, MatchOption, None, Some};
ghost use Rattle.std.specs.Vec.{vec_len, vec_capacity};
ghost use Rattle.iocm_model.specs.Change.Meaning.{meaning};
ghost use Rattle.iocm_model.specs.Change.Tree.{depth_of, leaves_of, most_depth, most_leaves, nodes_of};
ghost use Rattle.iocm_model.specs.Operation.State.{State};
ghost use Rattle.iocm_tree.specs.Trees.{tree_of, parts_of, plain_tree, edit_in, parts_in};
ghost use Rattle.iocm_tree.specs.LettingGo.{work_in};
ghost use Rattle.iocm_tree.specs.Limits.{limit_refusal, meaning_unless};
ghost use Rattle.iocm_tree.specs.Reversed.{reversed};

mod copying;
mod limits;
mod nodes;
mod reversal;

use crate::Edit;
use iocm_types::{Refused, Rule};
use std::alloc::{AllocError, Allocator, Global};

/// The most depth of a tree that isn't refused.
const MOST_DEPTH: u32 = 32;

/// The most leaves of a tree that isn't refused.
const MOST_LEAVES: u32 = 4096;

/// A change tree: edits of a machine's configuration, and what is done with them together. A leaf
/// has depth 1, as a node without parts; nodes are numbered in preorder from 0. Contracts see it by
/// `tree_of` as a tree of edits with their room for the way back, and by `plain_tree` of that as
/// the model's change tree, whatever its allocator. The words are own.
pub enum Tree<A: Allocator = Global> {
    /// One edit.
    Leaf(Edit<A>),
    /// The parts are performed in order, all or none.
    Row(Vec<Tree<A>, A>),
    /// A Row after which the rules hold.
    Group(Vec<Tree<A>, A>),
    /// The first part that is accepted and after which the rules hold is performed.
    Choose(Vec<Tree<A>, A>),
}

impl<A: Allocator> Drop for Tree<A> {
    /// In a loop and without memory, so that a tree of any depth is let go.
    fn drop(self) {
        let Some(mut parts) = self.into_parts() else {
            return;
        };
        while let Some(tree) = parts.pop() {
            parts = opened(parts, tree);
        }
        parts.destroy_empty();
    }
}

impl<A: Allocator> Tree<A> {
    /// The edit of a leaf; none of another node, and its parts are let go.
    pub fn into_edit(self) -> Option<Edit<A>>
        ensures { result ≡ edit_in (tree_of self) }
    {
        match self {
            Tree::Leaf(edit) => Some(edit),
            Tree::Row(_) => None,
            Tree::Group(_) => None,
            Tree::Choose(_) => None,
        }
    }

    /// The parts of a Row, a Group or a Choose; none of a leaf, and its edit is let go.
    pub fn into_parts(self) -> Option<Vec<Tree<A>, A>>
        ensures { MatchOption result (parts_in (tree_of self) ≡ None)
            (λ parts. parts_in (tree_of self) ≡ Some (parts_of parts.items)) }
    {
        match self {
            Tree::Leaf(_) => None,
            Tree::Row(parts) => Some(parts),
            Tree::Group(parts) => Some(parts),
            Tree::Choose(parts) => Some(parts),
        }
    }

    /// An equal tree under another allocator, each edit with the same room for its way back. It
    /// calls itself as deep as the tree is.
    ///
    /// `AllocError` (M1): memory ran out.
    pub fn copy_in<B: Allocator + Copy>(&self, alloc: B) -> Result<Tree<B>, AllocError>
        ensures { IfOk result (λ copy. tree_of copy ≡ tree_of self.now) }
    {
        copying::copy_tree(self, alloc)
    }

    /// The tree in reverse order: Rows and Groups all the way down; the parts of a Choose stay in
    /// their order, and are reversed inside. It is done in place, so it can't run out of
    /// memory, and calls itself as deep as the tree is.
    pub fn reverse(self) -> Self
        ensures { tree_of result ≡ reversed (tree_of self) }
    {
        let mut tree = self;
        reversal::reverse_tree(&mut tree);
        tree
    }

    /// Its depth, 1 to 32; 33 where it is deeper. It calls itself no deeper than that.
    pub fn depth(&self) -> u32
        ensures { result ≡ min (most_depth + 1) (depth_of (plain_tree (tree_of self.now))) }
    {
        limits::depth_within(self, MOST_DEPTH + 1)
    }

    /// Its leaves, 1 to 4,096; 4,097 where there are more. A node without parts counts as one. It
    /// calls itself as deep as the tree is.
    pub fn leaves(&self) -> u32
        ensures { result ≡ min (most_leaves + 1) (leaves_of (plain_tree (tree_of self.now))) }
    {
        limits::leaves_within(self, MOST_LEAVES + 1)
    }

    /// Its nodes. It calls itself as deep as the tree is.
    pub fn nodes(&self) -> u64
        requires { nodes_of (plain_tree (tree_of self.now)) < 2 ^ 64 }
        ensures { result ≡ nodes_of (plain_tree (tree_of self.now)) }
    {
        nodes::count_nodes(self)
    }

    /// Why the tree is refused in every state, if it is over a limit: C1 where it is deeper than
    /// 32, else C2 where it has more than 4,096 leaves; the refusal names no node. It calls itself
    /// no deeper than 33 however deep the tree is.
    pub fn refusal(&self) -> Option<Refused>
        ensures value { result ≡ limit_refusal (plain_tree (tree_of self.now)) }
        ensures meaning { (s : State)
            → meaning (plain_tree (tree_of self.now)) s
            ≡ meaning_unless result (plain_tree (tree_of self.now)) s }
    {
        let rule = if self.depth() > MOST_DEPTH {
            Rule::C1
        } else if self.leaves() > MOST_LEAVES {
            Rule::C2
        } else {
            return None;
        };
        Some(Refused::of(rule))
    }
}

/// What is still to be let go of these parts and one more tree: the parts of that tree, the first
/// of which is a Row of what else there is. Can't run out of memory.
fn opened<A: Allocator>(rest: Vec<Tree<A>, A>, tree: Tree<A>) -> Vec<Tree<A>, A>
    requires { vec_len rest < vec_capacity rest }
    ensures { work_in (parts_of result.items) < work_in (parts_of (rest.items ++ tree ∷ [])) }
{
    let mut rest = rest;
    let Some(mut inner) = tree.into_parts() else {
        return rest;
    };
    if rest.is_empty() {
        rest.destroy_empty();
        return inner;
    }
    let Some(last) = inner.pop() else {
        inner.destroy_empty();
        return rest;
    };
    rest.push_reserved(last);
    inner.push_reserved(Tree::Row(rest));
    inner.rotate_right(1);
    inner
}
