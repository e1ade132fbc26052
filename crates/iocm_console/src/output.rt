ghost use Rattle.std.specs.Prelude.{◌≡◌, false, ◌++◌, ◌∷◌, [], IsOk, IsErr, OnOk, OnErr, IfErr};
ghost use Rattle.std.specs.Io.Buffered.{writer_contents};
ghost use Rattle.std.specs.Option.{is_some};
ghost use Rattle.std.specs.Io.KnownBytes.{Keeps};
ghost use Rattle.iocm_model.specs.Machine.Table.{heading};
ghost use Rattle.iocm_console.specs.Output.{writer_of, has_failed, IsHandedOn, PrintsLine, FailedToWrite, Writes};
ghost use Rattle.iocm_console.specs.Counted.{accepted_line, changed_line};
ghost use Rattle.iocm_console.specs.Refusal.{refusal_line};

use crate::row::write_heading;
use crate::{ConsoleError, Refusal, Written};
use std::io::{BufWriter, ErrorKind, Write};
use std::{fmt, io};

/// A writer with the program's own buffer in front of it, and a note of how a write failed, if one
/// did.
#[derive(Drop)]
pub struct Output<W: Write + Drop> {
    writer: BufWriter<W>,
    failed: Option<ErrorKind>,
}

impl<W: Write + Drop> Output<W> {
    /// A writer to which no write has failed.
    pub fn new(writer: BufWriter<W>) -> Self
        ensures writer { writer_of result ≡ writer }
        ensures works { has_failed result ≡ false }
    {
        Output {
            writer,
            failed: None,
        }
    }

    /// How a write failed, if one did.
    pub fn failure(&self) -> Option<ErrorKind>
        ensures { is_some result ≡ has_failed self.now }
    {
        self.failed
    }

    /// Notes whether a write failed.
    fn note(&mut self, written: io::Result<()>) -> Written
        ensures writer { writer_of self.new ≡ writer_of self.old }
        ensures ok { OnOk result (IsOk written) }
        ensures err { OnErr result (IsErr written) }
        ensures works { OnOk result (has_failed self.new ≡ has_failed self.old) }
        ensures fault { IfErr result (FailedToWrite self.new) }
    {
        match written {
            Ok(()) => Ok(()),
            Err(error) => {
                self.failed = Some(error.kind());
                Err(ConsoleError::Write)
            }
        }
    }

    /// Writes the heading of the table. Can't run out of memory.
    pub fn heading(&mut self) -> Written
        ensures { Writes W.contents result self.old self.new (heading ++ 10 ∷ []) }
    {
        let written = write_heading(&mut self.writer);
        self.note(written)
    }

    /// Writes the line of a refusal. Can't run out of memory.
    pub fn refusal(&mut self, why: Refusal) -> Written
        ensures { Writes W.contents result self.old self.new (refusal_line why) }
    {
        let written = writeln!(self.writer, "{why}");
        self.note(written)
    }

    /// Writes that a configuration of so many records is accepted. Can't run out of memory.
    pub fn accepted(&mut self, count: usize) -> Written
        ensures { Writes W.contents result self.old self.new (accepted_line count) }
    {
        let written = writeln!(self.writer, "accepted {count}");
        self.note(written)
    }

    /// Writes that the first change was made, and how many subchannels it altered. Can't run
    /// out of memory.
    pub fn changed(&mut self, altered: usize) -> Written
        ensures { Writes W.contents result self.old self.new (changed_line altered) }
    {
        let written = writeln!(self.writer, "change 1 altered {altered}");
        self.note(written)
    }

    /// Writes a text as it is displayed, and the end of its line. Can't run out of memory.
    pub fn line<D: fmt::Display + Drop>(&mut self, text: D) -> Written
        ensures text { OnOk result (PrintsLine W.contents self.old self.new (D.output text)) }
        ensures works { OnOk result (has_failed self.new ≡ has_failed self.old) }
        ensures fault { IfErr result (FailedToWrite self.new) }
    {
        let written = writeln!(self.writer, "{text}");
        self.note(written)
    }

    /// Writes these bytes. Can't run out of memory.
    #[inline(always)]
    pub fn bytes(&mut self, bytes: &[u8]) -> Written
        ensures { Writes W.contents result self.old self.new bytes.now }
    {
        let written = self.writer.write_all(bytes);
        self.note(written)
    }

    /// Hands on what the program's own buffer still keeps back.
    pub fn flush(&mut self) -> Written
        ensures text { Keeps (writer_contents W.contents (writer_of self.old))
            (writer_contents W.contents (writer_of self.new)) }
        ensures handed_on { OnOk result (IsHandedOn self.new) }
        ensures works { OnOk result (has_failed self.new ≡ has_failed self.old) }
        ensures fault { IfErr result (FailedToWrite self.new) }
    {
        let written = self.writer.flush();
        self.note(written)
    }
}
