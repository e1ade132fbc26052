//! The calls that lines ask for.
ghost use Rattle.std.specs.Prelude.{◌≡◌, map, IfOk};
ghost use Rattle.iocm_core.specs.Calls.{call_in};
ghost use Rattle.iocm_operation.specs.Asked.{trees_in, AreAsked, HasOne};
ghost use Rattle.iocm_operation.specs.Saying.{asked_by_image, asked_by_operator, call_said, tree_at};
ghost use Rattle.iocm_tree.specs.Trees.{plain_tree, tree_of};

use iocm_core::Call;
use iocm_rounds::Round;
use iocm_script::{ImageCommand, ImageThread, Line, OperatorCommand, OperatorThread, Said};
use iocm_tree::Tree;
use std::alloc::{AllocError, Global};
use std::collections::VecDeque;

/// The change tree of a number, copied.
fn copied(alloc: Global, trees: &[Tree], number: u64) -> Result<Tree, AllocError>
    ensures { IfOk result (λ tree. plain_tree (tree_of tree) ≡ tree_at (trees_in trees.now) number) }
{
    match trees.get(number.saturating_sub(1) as usize) {
        Some(tree) => tree.copy_in(alloc),
        None => Ok(Tree::Row(Vec::new(alloc))),
    }
}

/// The same in a box.
fn boxed(alloc: Global, trees: &[Tree], number: u64) -> Result<Box<Tree>, AllocError>
    ensures { IfOk result (λ tree. plain_tree (tree_of tree.value) ≡ tree_at (trees_in trees.now) number) }
{
    let tree = copied(alloc, trees, number)?;
    Ok(Box::new(alloc, tree)?)
}

/// What an image asks.
fn image_call(command: ImageCommand) -> Call
    ensures { call_in result ≡ asked_by_image command }
{
    match command {
        ImageCommand::Io(subchannel, order) => Call::Io(subchannel, order),
        ImageCommand::DeviceBegin(subchannel) => Call::DeviceBegin(subchannel),
        ImageCommand::DeviceEnd(subchannel) => Call::DeviceEnd(subchannel),
    }
}

/// What an operator asks.
fn operator_call(
    alloc: Global,
    trees: &[Tree],
    command: OperatorCommand,
) -> Result<Call, AllocError>
    ensures { IfOk result (λ call. call_in call ≡ asked_by_operator (trees_in trees.now) command) }
{
    Ok(match command {
        OperatorCommand::Activate(number) => Call::Activate(boxed(alloc, trees, number)?),
        OperatorCommand::Begin(number) => Call::Begin(boxed(alloc, trees, number)?),
        OperatorCommand::Advance => Call::Advance,
        OperatorCommand::Commit => Call::Commit,
        OperatorCommand::Abort => Call::Abort,
        OperatorCommand::Undo(number) => Call::Undo(number),
        OperatorCommand::Redo(number) => Call::Redo(number),
        OperatorCommand::Show => Call::Show,
    })
}

/// Adds the call of a line to those of its actor.
fn add(alloc: Global, trees: &[Tree], round: &mut Round, line: &Line) -> Result<(), AllocError>
    ensures { IfOk result (λ _. HasOne (trees_in trees.now) line.now round.old round.new) }
{
    match line.said {
        Said::Image(ImageThread::A, command) => round.a.push_back(image_call(command))?,
        Said::Image(ImageThread::B, command) => round.b.push_back(image_call(command))?,
        Said::Operator(OperatorThread::P, command) => {
            let call = operator_call(alloc, trees, command)?;
            round.p.push_back(call)?;
        }
        Said::Operator(OperatorThread::Q, command) => {
            let call = operator_call(alloc, trees, command)?;
            round.q.push_back(call)?;
        }
    }
    Ok(())
}

/// The calls of a round's lines, of each actor in their order.
///
/// `AllocError` (M1): memory was missing.
pub(crate) fn round_of(alloc: Global, trees: &[Tree], lines: &[Line]) -> Result<Round, AllocError>
    ensures { IfOk result (λ round. AreAsked (trees_in trees.now) lines.now round) }
{
    let mut round = Round {
        a: VecDeque::new(alloc),
        b: VecDeque::new(alloc),
        p: VecDeque::new(alloc),
        q: VecDeque::new(alloc),
    };
    for line in lines {
        add(alloc, trees, &mut round, line)?;
    }
    Ok(round)
}
