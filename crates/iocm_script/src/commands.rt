ghost use Rattle.std.specs.Prelude.{◌≡◌, map};
ghost use Rattle.iocm_script.specs.Commands as meaning;

use crate::operands::{number, setting, sub_id};
use crate::said::Actor;
use crate::verb::{Verb, verb_named};
use crate::{ImageCommand, ImageThread, OperatorCommand, OperatorThread, Said};
use iocm_types::{Order, SubId};

/// The subchannel that stands alone behind a word.
fn subchannel(operands: &[&[u8]]) -> Option<SubId>
    ensures { result ≡ meaning.subchannel (map (λ w. w.now) operands.now) }
{
    match operands {
        [name] => sub_id(name),
        _ => None,
    }
}

/// An order to the subchannel that stands alone behind its word.
fn order(order: Order, operands: &[&[u8]]) -> Option<ImageCommand>
    ensures { result ≡ meaning.order order (map (λ w. w.now) operands.now) }
{
    let name = subchannel(operands)?;
    Some(ImageCommand::Io(name, order))
}

/// MODIFY SUBCHANNEL, with the subchannel and what is to be set behind its word.
fn modify(operands: &[&[u8]]) -> Option<ImageCommand>
    ensures { result ≡ meaning.modify (map (λ w. w.now) operands.now) }
{
    match operands {
        [] => None,
        [name, operands @ ..] => {
            let name = sub_id(name)?;
            let setting = setting(operands)?;
            Some(ImageCommand::Io(name, Order::Modify(setting)))
        }
    }
}

/// The number that stands alone behind a word.
fn lone_number(operands: &[&[u8]]) -> Option<u64>
    ensures { result ≡ meaning.lone_number (map (λ w. w.now) operands.now) }
{
    match operands {
        [text] => number(text),
        _ => None,
    }
}

/// A command whose word stands alone.
fn alone(command: OperatorCommand, operands: &[&[u8]]) -> Option<OperatorCommand>
    ensures { result ≡ meaning.alone command (map (λ w. w.now) operands.now) }
{
    if operands.is_empty() {
        Some(command)
    } else {
        None
    }
}

/// What an image says by a command and what stands behind its word, if it is an image's.
fn image_command(verb: Verb, operands: &[&[u8]]) -> Option<ImageCommand>
    ensures { result ≡ meaning.image_command verb (map (λ w. w.now) operands.now) }
{
    match verb {
        Verb::Start => order(Order::Start, operands),
        Verb::Halt => order(Order::Halt, operands),
        Verb::Clear => order(Order::Clear, operands),
        Verb::Cancel => order(Order::Cancel, operands),
        Verb::Test => order(Order::Test, operands),
        Verb::Store => order(Order::Store, operands),
        Verb::Modify => modify(operands),
        Verb::Active => Some(ImageCommand::DeviceBegin(subchannel(operands)?)),
        Verb::End => Some(ImageCommand::DeviceEnd(subchannel(operands)?)),
        _ => None,
    }
}

/// What an operator says by a command and what stands behind its word, if it is an operator's.
fn operator_command(verb: Verb, operands: &[&[u8]]) -> Option<OperatorCommand>
    ensures { result ≡ meaning.operator_command verb (map (λ w. w.now) operands.now) }
{
    match verb {
        Verb::Activate => Some(OperatorCommand::Activate(lone_number(operands)?)),
        Verb::Begin => Some(OperatorCommand::Begin(lone_number(operands)?)),
        Verb::Advance => alone(OperatorCommand::Advance, operands),
        Verb::Commit => alone(OperatorCommand::Commit, operands),
        Verb::Abort => alone(OperatorCommand::Abort, operands),
        Verb::Undo => Some(OperatorCommand::Undo(lone_number(operands)?)),
        Verb::Redo => Some(OperatorCommand::Redo(lone_number(operands)?)),
        Verb::Show => alone(OperatorCommand::Show, operands),
        _ => None,
    }
}

/// The actor of a word, if it is an actor's.
fn actor_named(word: &[u8]) -> Option<Actor>
    ensures { result ≡ meaning.actor_named word.now }
{
    match word {
        b"A" => Some(Actor::Image(ImageThread::A)),
        b"B" => Some(Actor::Image(ImageThread::B)),
        b"P" => Some(Actor::Operator(OperatorThread::P)),
        b"Q" => Some(Actor::Operator(OperatorThread::Q)),
        _ => None,
    }
}

/// What an actor says by a command and what stands behind its word.
fn said_by(actor: Actor, verb: Verb, operands: &[&[u8]]) -> Option<Said>
    ensures { result ≡ meaning.said_by actor verb (map (λ w. w.now) operands.now) }
{
    match actor {
        Actor::Image(thread) => Some(Said::Image(thread, image_command(verb, operands)?)),
        Actor::Operator(thread) => Some(Said::Operator(thread, operator_command(verb, operands)?)),
    }
}

/// What the word of an actor, that of a command and those behind it say.
pub(crate) fn said(actor: &[u8], word: &[u8], operands: &[&[u8]]) -> Option<Said>
    ensures { result ≡ meaning.said actor.now word.now (map (λ w. w.now) operands.now) }
{
    let actor = actor_named(actor)?;
    let verb = verb_named(word)?;
    said_by(actor, verb, operands)
}
