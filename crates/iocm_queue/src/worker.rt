ghost use Rattle.std.specs.Prelude.{◌≡◌, ◌<◌, ◌↔◌, true, IsTrue};
ghost use Rattle.iocm_queue.specs.Ends.{takes_message};
ghost use Rattle.iocm_queue.specs.Taken.{is_over, lines_of, message_of, sender_of, AreOver, IsNumbered};

use crate::message::{Item, Message};
use crate::operator::Finished;
use crate::part::{Receiver, Sender, Settles, Takes, Token};
use std::marker::Model;
use std::sync::Wait;

/// How far the worker is with the messages of one operator.
#[derive(Clone, Copy)]
pub struct Progress {
    /// How many lines it has taken.
    pub lines: usize,
    /// Whether it has taken the end mark.
    pub over: bool,
}

/// The worker's end of the queue. Contracts see its channel, and the messages that it has taken, in
/// order.
#[derive(Drop)]
pub struct Worker<T: Drop> {
    pub(crate) sender: Sender<T>,
    pub(crate) receiver: Receiver<T>,
    pub(crate) pass: Token<T>,
    pub(crate) progress: [Progress; 2],
}

impl<T: Drop> Model for Worker<T> {
    ghost use Rattle.iocm_queue.specs.Ends.{Taking};

    ghost Value = { Taking T };

    ghost use Rattle.iocm_queue.specs.Inside.{taking_of, IsWorker};

    ghost view = { λ w. taking_of w.pass };

    ghost invariant = { λ w. IsWorker w.sender w.receiver w.pass w.progress };
}

impl<T: Drop> Worker<T> {
    /// Takes the next message, and waits for it. A line has as its index how many lines of its
    /// operator were taken before.
    ///
    /// After 2^64 - 1 lines of one operator the call waits for ever.
    pub fn next<R: Wait>(&mut self, rt: &R) -> Item<T>
        ensures taken { self.new ≡ takes_message self.old (message_of result) }
        ensures operator { sender_of (message_of result) < 2 }
        ensures index { IsNumbered self.old.taken result }
    {
        if let Ok(message) = self.receiver.recv_as::<Takes, R>(rt, &mut self.pass) {
            match message {
                Message::Line(number, item) => {
                    let operator = usize::from(number);
                    let index = self.progress[operator].lines;
                    if index < usize::MAX {
                        self.progress[operator].lines = index + 1;
                        return Item::Line(number, index, item);
                    }
                }
                Message::End(number) => {
                    self.progress[usize::from(number)].over = true;
                    return Item::End(number);
                }
            }
        }
        for _ in rt.forever() {}
        unreachable!()
    }

    /// Whether both end marks were taken.
    pub fn is_over(&self) -> bool
        ensures { IsTrue result ↔ AreOver self.now.taken }
    {
        self.progress[0].over && self.progress[1].over
    }

    /// Compares what was taken of an operator with what it sent, once its end mark was taken: its
    /// lines were taken in order, each once. It is there for callers' proofs.
    pub fn settle(&mut self, done: Finished<T>)
        requires channel { done.channel ≡ self.old.channel }
        requires over { is_over done.number self.old.taken ≡ true }
        ensures same { self.new ≡ self.old }
        ensures all { lines_of done.number self.old.taken ≡ done.sent }
    {
        let Finished { pass, number: _ } = done;
        self.sender.absorb::<Settles>(&mut self.pass, pass);
        self.sender.learn_as::<Settles>(&mut self.pass);
    }
}
