ghost use Rattle.std.specs.Prelude.{◌≡◌, ◌+◌, ◌<◌, ◌^◌, IfOk, OnErr};
ghost use Rattle.iocm_model.specs.Change.Meaning.{if_rules_hold, node_meaning, parts_meaning};
ghost use Rattle.iocm_model.specs.Change.Meaning.{choice_meaning, without_parts};
ghost use Rattle.iocm_model.specs.Change.Tree.{nodes_of, nodes_in};
ghost use Rattle.iocm_tree.specs.Trees.{parts_of, plain_parts, plain};
ghost use Rattle.iocm_activate.specs.Walked.{Answers, Ran, WereKept};

use crate::leaf::perform;
use crate::log::Log;
use crate::rules::broken;
use crate::taking_back::take_back;
use iocm_plant::{Plant, what_happens_between};
use iocm_tree::Tree;
use iocm_types::{At, Refused, Rule};
use std::alloc::{AllocError, Allocator, Global};

/// Performs a tree whose first node has this number. The answer is why it is refused, if it is;
/// what was done until then is still done.
///
/// `AllocError` (M1): memory ran out; what was done until then is still done.
#[cycle(walk)]
pub fn walk<A: Allocator>(
    alloc: Global,
    plant: &mut Plant,
    log: &mut Log,
    tree: &Tree<A>,
    node: u64,
) -> Result<Option<Refused>, AllocError>
    requires nodes { node + nodes_of (plain tree.now) < 2 ^ 64 }
    requires kept { WereKept log.old plant.old.state }
    ensures answers { IfOk result (Answers (node_meaning
        (plain tree.now) node plant.old.state) plant.old log.old plant.new log.new) }
    ensures ran { OnErr result (Ran plant.old log.old plant.new log.new) }
    ensures kept { WereKept log.new plant.new.state }
{
    match tree {
        Tree::Leaf(edit) => perform(alloc, plant, log, edit, node),
        Tree::Row(parts) => walk_all(alloc, plant, log, parts, node + 1),
        Tree::Group(parts) => walk_group(alloc, plant, log, parts, node),
        Tree::Choose(parts) => walk_first(alloc, plant, log, parts, node),
    }
}

/// Performs a tree, after which the rules are to be kept.
///
/// `AllocError` (M1): memory ran out; what was done until then is still done.
#[cycle(walk)]
pub fn walk_closed<A: Allocator>(
    alloc: Global,
    plant: &mut Plant,
    log: &mut Log,
    tree: &Tree<A>,
    node: u64,
) -> Result<Option<Refused>, AllocError>
    requires nodes { node + nodes_of (plain tree.now) < 2 ^ 64 }
    requires kept { WereKept log.old plant.old.state }
    ensures answers { IfOk result (Answers (if_rules_hold node
        (node_meaning (plain tree.now) node plant.old.state)) plant.old log.old plant.new log.new) }
    ensures ran { OnErr result (Ran plant.old log.old plant.new log.new) }
    ensures kept { WereKept log.new plant.new.state }
{
    // For the proof alone: what was done can be taken back still, once the rules were looked at.
    what_happens_between();
    match walk(alloc, plant, log, tree, node)? {
        Some(why) => Ok(Some(why)),
        None => Ok(broken(plant, log, node)),
    }
}

/// Performs the parts of a Group in order, after which the rules are to be kept.
///
/// `AllocError` (M1): memory ran out; what was done until then is still done.
#[cycle(walk)]
fn walk_group<A: Allocator>(
    alloc: Global,
    plant: &mut Plant,
    log: &mut Log,
    parts: &Vec<Tree<A>, A>,
    node: u64,
) -> Result<Option<Refused>, AllocError>
    requires nodes { node + 1 + nodes_in (plain_parts (parts_of parts.now.items)) < 2 ^ 64 }
    requires kept { WereKept log.old plant.old.state }
    ensures answers { IfOk result (Answers (if_rules_hold node
        (parts_meaning (plain_parts (parts_of parts.now.items))
        (node + 1) plant.old.state)) plant.old log.old plant.new log.new) }
    ensures ran { OnErr result (Ran plant.old log.old plant.new log.new) }
    ensures kept { WereKept log.new plant.new.state }
{
    // For the proof alone: what was done can be taken back still, once the rules were looked at.
    what_happens_between();
    match walk_all(alloc, plant, log, parts, node + 1)? {
        Some(why) => Ok(Some(why)),
        None => Ok(broken(plant, log, node)),
    }
}

/// Performs parts in order, the first of which has this number; the first refusal is the answer.
///
/// `AllocError` (M1): memory ran out; what was done until then is still done.
#[cycle(walk)]
fn walk_all<A: Allocator>(
    alloc: Global,
    plant: &mut Plant,
    log: &mut Log,
    parts: &Vec<Tree<A>, A>,
    node: u64,
) -> Result<Option<Refused>, AllocError>
    requires nodes { node + nodes_in (plain_parts (parts_of parts.now.items)) < 2 ^ 64 }
    requires kept { WereKept log.old plant.old.state }
    ensures answers { IfOk result (Answers (parts_meaning
        (plain_parts (parts_of parts.now.items)) node plant.old.state) plant.old log.old plant.new log.new) }
    ensures ran { OnErr result (Ran plant.old log.old plant.new log.new) }
    ensures kept { WereKept log.new plant.new.state }
{
    // For the proof alone: the state is sound, and what was done before can be taken back still.
    plant.is_sound();
    what_happens_between();
    let mut next = node;
    for part in parts {
        let size = part.nodes();
        match walk(alloc, plant, log, part, next)? {
            Some(why) => return Ok(Some(why)),
            None => next += size,
        }
    }
    Ok(None)
}

/// Performs the first part of a Choose that is accepted and after which the rules are kept; each
/// one that is refused is taken back. The answer is the last refusal, where all are refused; E3,
/// where there are none.
///
/// `AllocError` (M1): memory ran out; what was done until then is still done.
#[cycle(walk)]
fn walk_first<A: Allocator>(
    alloc: Global,
    plant: &mut Plant,
    log: &mut Log,
    parts: &Vec<Tree<A>, A>,
    node: u64,
) -> Result<Option<Refused>, AllocError>
    requires nodes { node + 1 + nodes_in (plain_parts (parts_of parts.now.items)) < 2 ^ 64 }
    requires kept { WereKept log.old plant.old.state }
    ensures answers { IfOk result (Answers (choice_meaning (plain_parts (parts_of parts.now.items)) (node + 1)
        (without_parts node) plant.old.state) plant.old log.old plant.new log.new) }
    ensures ran { OnErr result (Ran plant.old log.old plant.new log.new) }
    ensures kept { WereKept log.new plant.new.state }
{
    // For the proof alone: the state is sound, and what was done before can be taken back still.
    plant.is_sound();
    what_happens_between();
    let mut last = no_parts(node);
    let mut next = node + 1;
    for part in parts {
        let size = part.nodes();
        let mark = log.mark();
        match walk_closed(alloc, plant, log, part, next)? {
            None => return Ok(None),
            Some(why) => {
                take_back(plant, log, mark);
                last = why;
                next += size;
            }
        }
    }
    Ok(Some(last))
}

/// E3: a Choose without parts.
fn no_parts(node: u64) -> Refused
    ensures { result ≡ without_parts node }
{
    Refused::about(Rule::E3, At::Nothing).at_node(node)
}
