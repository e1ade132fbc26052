ghost use Rattle.std.specs.Prelude.{◌≡◌, ◌≤◌, [], length, IfOk};
ghost use Rattle.std.specs.Vec.{vec_capacity};
ghost use Rattle.iocm_tree.specs.Trees.{row, tree_of};
ghost use Rattle.iocm_activate.specs.Done.{leaves_from, touched_in};
ghost use Rattle.iocm_activate.specs.Told.{way_back};

use crate::effect::Effect;
use crate::log::Log;
use iocm_plant::{Applied, Touched};
use iocm_tree::Tree;
use std::alloc::{AllocError, Global};

/// That a change was performed. The word is own.
#[derive(Drop)]
pub struct Done {
    /// The tree that takes it back: one Row of the inverses of the edits that were performed, that
    /// of the last one first.
    pub inverse: Tree,
    /// What it wrote, with the values after it.
    pub effect: Effect,
    /// What each edit did, in their order.
    pub performed: Vec<Touched>,
}

/// The same without what it wrote. The word is own.
#[derive(Drop)]
pub struct Made {
    /// The tree that takes it back, as that of `Done`.
    pub inverse: Tree,
    /// What each edit did, in their order.
    pub performed: Vec<Touched>,
}

/// Memory for what is told of a change.
#[derive(Drop)]
pub struct Prepared {
    parts: Vec<Tree>,
    performed: Vec<Touched>,
}

/// Makes the memory for what is told of a change.
pub fn prepare(alloc: Global, log: &Log) -> Result<Prepared, AllocError>
    ensures parts { IfOk result (λ p. p.parts.items ≡ []) }
    ensures performed { IfOk result (λ p. p.performed.items ≡ []) }
    ensures room { IfOk result (λ p. length log.now.done.items ≤ vec_capacity p.parts) }
    ensures more_room { IfOk result (λ p. length log.now.done.items ≤ vec_capacity p.performed) }
{
    let parts = Vec::with_capacity(alloc, log.done.len())?;
    let performed = Vec::with_capacity(alloc, log.done.len())?;
    Ok(Prepared { parts, performed })
}

/// What is told of a change. Can't run out of memory.
pub fn tell(prepared: Prepared, done: Vec<Applied>) -> Made
    requires parts { prepared.parts.items ≡ [] }
    requires performed { prepared.performed.items ≡ [] }
    requires room { length done.items ≤ vec_capacity prepared.parts }
    requires more_room { length done.items ≤ vec_capacity prepared.performed }
    ensures inverse { tree_of result.inverse ≡ row (leaves_from (way_back done.items)) }
    ensures performed { result.performed.items ≡ touched_in done.items }
{
    let Prepared {
        mut parts,
        mut performed,
    } = prepared;
    let mut done = done;
    while let Some(applied) = done.pop() {
        let Applied { inverse, touched } = applied;
        parts.push_reserved(Tree::Leaf(inverse));
        performed.push_reserved(touched);
    }
    performed.reverse();
    Made {
        inverse: Tree::Row(parts),
        performed,
    }
}

/// The tree that takes edits back: one Row of their inverses, that of the last one first. There is
/// room for the parts. Can't run out of memory.
pub fn way_back_of(parts: Vec<Tree>, done: Vec<Applied>) -> Tree
    requires parts { parts.items ≡ [] }
    requires room { length done.items ≤ vec_capacity parts }
    ensures { tree_of result ≡ row (leaves_from (way_back done.items)) }
{
    let mut leaves = parts;
    let mut done = done;
    while let Some(applied) = done.pop() {
        let Applied {
            inverse,
            touched: _touched,
        } = applied;
        leaves.push_reserved(Tree::Leaf(inverse));
    }
    Tree::Row(leaves)
}
