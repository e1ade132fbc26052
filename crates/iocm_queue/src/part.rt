use crate::message::Message;
use crossbeam_channel::protocol::{Join, Lesson, Outcome, Protocol, Split};
use crossbeam_channel::{Pass, RuledReceiver, RuledSender};
use std::alloc::Global;
use std::collections::LinkedList;

/// What the pass of an operator or of the worker knows of the channel. It is there for contracts
/// and proofs: no value of it is made.
pub struct Part<T> {
    /// Whether messages are sent with it.
    pub sends: bool,
    /// As which operator.
    pub by: u8,
    /// What was sent, in order.
    pub sent: LinkedList<Message<T>>,
    /// Whether messages are taken with it.
    pub takes: bool,
    /// What was taken, in order.
    pub taken: LinkedList<Message<T>>,
    /// How many operators there are; their numbers are those below.
    pub operators: u8,
}

/// The rule of the channel.
pub struct Law;

pub type Token<T> = Pass<Message<T>, Part<T>>;

pub type Sender<T> = RuledSender<Message<T>, Part<T>, Law, Global>;

pub type Receiver<T> = RuledReceiver<Message<T>, Part<T>, Law, Global>;

impl<T> Protocol<Message<T>, Part<T>> for Law {
    ghost use Rattle.iocm_queue.specs.Rule.{Kept};
    ghost use Rattle.iocm_queue.specs.Parts.{first_part};

    ghost holds = { Kept };

    ghost first = { first_part };
}

/// An operator sends a message.
pub struct Sends;

impl<T> Outcome<Message<T>, Part<T>> for Sends {
    ghost use Rattle.std.specs.Prelude.{◌≡◌};
    ghost use Rattle.iocm_queue.specs.Parts.{sends_more};

    ghost then = { λ v m w. w ≡ sends_more v m };
}

/// An operator learns that the channel is full: which of its messages wait in it.
impl<T> Lesson<Message<T>, Part<T>> for Sends {
    ghost use Rattle.iocm_queue.specs.Taken.{IsWaiting};

    ghost fact = { λ v items. IsWaiting v.by v.sent items };
}

/// The worker takes a message.
pub struct Takes;

impl<T> Outcome<Message<T>, Part<T>> for Takes {
    ghost use Rattle.std.specs.Prelude.{◌≡◌, ◌<◌};
    ghost use Rattle.iocm_queue.specs.Parts.{takes_more};
    ghost use Rattle.iocm_queue.specs.Taken.{sender_of};

    ghost then = { λ v m w. (w ≡ takes_more v m) × (sender_of m < v.operators) };
}

impl<T> Lesson<Message<T>, Part<T>> for Takes {
    ghost use Rattle.std.specs.Prelude.{⊤};

    ghost fact = { λ v items. ⊤ };
}

/// The worker makes an operator.
pub struct Hires;

impl<T> Split<Part<T>> for Hires {
    ghost use Rattle.iocm_queue.specs.Parts.{hires, hired};

    ghost left = { hires };

    ghost right = { hired };
}

/// The worker compares what it took with what an operator sent.
pub struct Settles;

impl<T> Join<Part<T>> for Settles {
    ghost use Rattle.iocm_queue.specs.Parts.{compares, spent};

    ghost both = { compares };

    ghost spent = { spent };
}

impl<T> Lesson<Message<T>, Part<T>> for Settles {
    ghost use Rattle.std.specs.Prelude.{◌≡◌, ◌++◌};
    ghost use Rattle.iocm_queue.specs.Taken.{of};

    ghost fact = { λ v items. of v.by v.taken ++ of v.by items ≡ v.sent };
}
