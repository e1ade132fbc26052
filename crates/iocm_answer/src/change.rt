//! The text of a change deck as a change tree, read in a heap of a fixed size.
ghost use Rattle.std.specs.Prelude.{◌≡◌, IfErr, IfOk, Ok};
ghost use Rattle.iocm_types.specs.Fault.{memory, Fails, Gives};
ghost use Rattle.iocm_tree.specs.Trees.{tree_of};
ghost use Rattle.iocm_tree_reader.specs.Reading as reading;
ghost use Rattle.iocm_tree_writer.specs.Again.{tree_in};
ghost use Rattle.iocm_answer.specs.Change as meaning;

use iocm_console::{Refusal, read_statements};
use iocm_statements::Statement;
use iocm_tree::Tree;
use iocm_tree_reader::read_tree;
use iocm_types::{Fault, Rule};
use linked_list_allocator::LocalHeap;
use std::alloc::Global;

/// The heaps that are tried one after the other if none is named, in bytes, and then the largest.
const HEAPS: [usize; 6] = [262_144, 524_288, 1_048_576, 2_097_152, 4_194_304, 8_388_608];

/// The largest heap, in bytes.
const LARGEST_HEAP: usize = 16_777_216;

/// Why a change tree isn't read: the first fault of its text, or that memory is missing; and the
/// size of the heap that was tried last, 0 before the first.
#[derive(Clone, Copy, PartialEq, Eq)]
pub struct Unread {
    fault: Fault,
    heap: usize,
}

impl From<Unread> for Refusal {
    ghost use Rattle.std.specs.Prelude.{◌≡◌};
    ghost use Rattle.iocm_console.specs.Refusal.{of_fault};

    ghost from_gives = { λ unread r. r ≡ of_fault unread.fault };

    fn from(unread: Unread) -> Refusal {
        Refusal::from(unread.fault)
    }
}

/// Before there is a heap.
impl From<Fault> for Unread {
    ghost use Rattle.std.specs.Prelude.{◌≡◌};

    ghost from_gives = { λ fault unread. unread ≡ record { fault = fault; heap = 0 } };

    fn from(fault: Fault) -> Unread {
        Unread { fault, heap: 0 }
    }
}

/// The change tree of a change deck, or its first fault. It is read in a heap that is let go again,
/// and the answer is a copy. The heap has as many bytes as are named. If none are, it has 262,144;
/// and if memory is missing there, the tree is read anew in one of twice the size, up to 16,777,216.
///
/// M1: memory ran out, in the last of these heaps or beside them.
///
/// Promise: M1 of a change deck comes before its tree is read, or after the last heap: the named one, or the largest.
pub fn read_change(alloc: Global, heap: Option<u32>, change: &[u8]) -> Result<Tree, Unread>
    ensures tree { IfOk result (λ tree. tree_in change.now ≡ Ok (tree_of tree)) }
    ensures fault { IfErr result (λ unread. Fails unread.fault (tree_in change.now)) }
    ensures heap { IfErr result (λ unread. unread.fault ≡ memory → meaning.IsLast heap unread.heap) }
{
    let statements = read_statements(alloc, change)?;
    match heap {
        Some(size) => read_in_heap(alloc, size as usize, &statements),
        None => read_in_heaps(alloc, &statements),
    }
}

/// The change tree of statements, read in larger and larger heaps.
fn read_in_heaps(alloc: Global, statements: &[Statement]) -> Result<Tree, Unread>
    ensures tree { IfOk result (λ tree. reading.read_tree statements.now ≡ Ok (tree_of tree)) }
    ensures fault { IfErr result (λ unread. Fails unread.fault (reading.read_tree statements.now)) }
    ensures heap { IfErr result (λ unread. unread.fault ≡ memory → unread.heap ≡ 16777216) }
{
    for size in HEAPS {
        match read_in_heap(alloc, size, statements) {
            Ok(tree) => return Ok(tree),
            Err(unread) if unread.fault.rule != Rule::M1 => return Err(unread),
            Err(_) => (),
        }
    }
    read_in_heap(alloc, LARGEST_HEAP, statements)
}

/// The change tree of statements, read in a heap of so many bytes.
fn read_in_heap(alloc: Global, size: usize, statements: &[Statement]) -> Result<Tree, Unread>
    ensures tree { IfOk result (λ tree. reading.read_tree statements.now ≡ Ok (tree_of tree)) }
    ensures fault { IfErr result (λ unread. Fails unread.fault (reading.read_tree statements.now)) }
    ensures heap { IfErr result (λ unread. unread.heap ≡ size) }
{
    match copy_from_heap(alloc, size, statements) {
        Ok(tree) => Ok(tree),
        Err(fault) => Err(Unread { fault, heap: size }),
    }
}

/// The change tree of statements, read in a heap of so many bytes and copied out.
fn copy_from_heap(alloc: Global, size: usize, statements: &[Statement]) -> Result<Tree, Fault>
    ensures { Gives tree_of result (reading.read_tree statements.now) }
{
    let heap = LocalHeap::new(alloc, size)?;
    let tree = read_tree(alloc, &heap, statements)?;
    Ok(tree.copy_in(alloc)?)
}
