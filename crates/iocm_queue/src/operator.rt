ghost use Rattle.std.specs.Prelude.{◌≡◌, MatchResult, IfOk, IfErr, OnOk, OnErr};
ghost use Rattle.iocm_queue.specs.Ends.{sends_line, WasFull};

use crate::message::Message;
use crate::part::{Sender, Sends, Token};
use crossbeam_channel::TrySendError;
use std::marker::Model;
use std::sync::Wait;

/// An operator's end of the queue. Contracts see its channel, its number, and the lines that it has
/// sent, in order.
#[derive(Drop)]
pub struct Operator<T: Drop> {
    pub(crate) sender: Sender<T>,
    pub(crate) pass: Token<T>,
    pub(crate) number: u8,
}

impl<T: Drop> Model for Operator<T> {
    ghost use Rattle.iocm_queue.specs.Ends.{Sending};

    ghost Value = { Sending T };

    ghost use Rattle.iocm_queue.specs.Inside.{sending_of, IsOperator};

    ghost view = { λ s. sending_of s.number s.pass };

    ghost invariant = { λ s. IsOperator s.sender s.number s.pass };
}

/// What is left of an operator that has sent its end mark. Contracts see of it what they see of an
/// operator.
#[derive(Drop)]
pub struct Finished<T: Drop> {
    pub(crate) pass: Token<T>,
    pub(crate) number: u8,
}

impl<T: Drop> Model for Finished<T> {
    ghost use Rattle.iocm_queue.specs.Ends.{Sending};

    ghost Value = { Sending T };

    ghost use Rattle.iocm_queue.specs.Inside.{sending_of, IsFinished};

    ghost view = { λ s. sending_of s.number s.pass };

    ghost invariant = { λ s. IsFinished s.number s.pass };
}

/// Q1: a line that was not sent, handed back, since the channel had no place.
#[derive(Drop)]
pub struct Full<T> {
    /// The line.
    pub item: T,
}

impl<T: Drop> Operator<T> {
    /// Sends a line, behind those that it has sent.
    ///
    /// Q1: at one moment of the call all 16 places of the channel were taken. The line is handed
    /// back, and nothing was sent. Where the worker is gone, the call waits for ever.
    pub fn submit<R: Wait>(&mut self, rt: &R, item: T) -> Result<(), Full<T>>
        ensures sent { OnOk result (self.new ≡ sends_line self.old item) }
        ensures same { OnErr result (self.new ≡ self.old) }
        ensures back { IfErr result (λ full. full.item ≡ item) }
        ensures full { OnErr result (WasFull self.old) }
    {
        let line = Message::Line(self.number, item);
        match self
            .sender
            .try_send_as::<Sends, R>(rt, &mut self.pass, line)
        {
            Ok(()) => return Ok(()),
            Err(TrySendError::Full(Message::Line(_, item))) => return Err(Full { item }),
            Err(_) => {}
        }
        for _ in rt.forever() {}
        unreachable!()
    }

    /// Sends the end mark, behind all lines. What is left tells what was sent.
    ///
    /// Q1, as at `submit`: the operator is handed back as it was.
    pub fn finish<R: Wait>(mut self, rt: &R) -> Result<Finished<T>, Operator<T>>
        ensures finished { IfOk result (λ done. done ≡ self) }
        ensures back { IfErr result (λ back. back ≡ self) }
        ensures full { OnErr result (WasFull self) }
    {
        let mark = Message::End(self.number);
        match self
            .sender
            .try_send_as::<Sends, R>(rt, &mut self.pass, mark)
        {
            Ok(()) => {
                let Operator {
                    sender: _,
                    pass,
                    number,
                } = self;
                return Ok(Finished { pass, number });
            }
            Err(TrySendError::Full(_)) => return Err(self),
            Err(_) => {}
        }
        for _ in rt.forever() {}
        unreachable!()
    }
}
