use bitflags::Flags;
use iocm_console::Refusal;
use iocm_types::{Answer, Counts, Io, Stored};
use std::fmt;

/// What STORE SUBCHANNEL gave, as it is printed.
#[derive(Clone, Copy)]
struct StoredText(Stored);

impl fmt::Display for StoredText {
    ghost use Rattle.std.specs.Prelude.{Some};
    ghost use Rattle.iocm_answer.specs.AnswerText.{stored_text};

    ghost output = { λ s. Some (stored_text s.0) };

    fn fmt<W: fmt::Write>(&self, f: &mut fmt::Formatter<W>) -> fmt::Result {
        let device = self.0.device;
        let pim = self.0.pim;
        let pam = self.0.pam;
        let lpm = self.0.lpm;
        let ena = u8::from(self.0.enabled);
        let parm = self.0.parm;
        let bits = self.0.bits.bits();
        write!(
            f,
            "dev {device} pim {pim} pam {pam} lpm {lpm} ena {ena} parm {parm:08X} scsw {bits:X}"
        )
    }
}

/// The answer to an order, as it is printed: the condition code, and what TEST or STORE gave.
#[derive(Clone, Copy)]
struct IoText(Io);

impl fmt::Display for IoText {
    ghost use Rattle.std.specs.Prelude.{Some};
    ghost use Rattle.iocm_answer.specs.AnswerText.{io_text};

    ghost output = { λ o. Some (io_text o.0) };

    fn fmt<W: fmt::Write>(&self, f: &mut fmt::Formatter<W>) -> fmt::Result {
        match self.0 {
            Io::Code(code) => write!(f, "cc {code}"),
            Io::Status(bits) => {
                let bits = bits.bits();
                write!(f, "cc 0 scsw {bits:X}")
            }
            Io::Stored(stored) => {
                let stored = StoredText(stored);
                write!(f, "cc 0 {stored}")
            }
        }
    }
}

/// What a machine counts, as it is printed.
#[derive(Clone, Copy)]
struct CountsText(Counts);

impl fmt::Display for CountsText {
    ghost use Rattle.std.specs.Prelude.{Some};
    ghost use Rattle.iocm_answer.specs.AnswerText.{counts_text};

    ghost output = { λ c. Some (counts_text c.0) };

    fn fmt<W: fmt::Write>(&self, f: &mut fmt::Formatter<W>) -> fmt::Result {
        let records = self.0.records;
        let subchannels = self.0.subchannels;
        let standing = self.0.standing;
        let undone = self.0.undone;
        write!(
            f,
            "records {records} subchannels {subchannels} standing {standing} undone {undone}"
        )
    }
}

/// An answer as it is printed, without the number of its line.
#[derive(Clone, Copy)]
pub struct AnswerText(pub Answer);

impl fmt::Display for AnswerText {
    ghost use Rattle.std.specs.Prelude.{Some};
    ghost use Rattle.iocm_answer.specs.AnswerText.{answer_text};

    ghost output = { λ a. Some (answer_text a.0) };

    fn fmt<W: fmt::Write>(&self, f: &mut fmt::Formatter<W>) -> fmt::Result {
        match self.0 {
            Answer::Io(io) => {
                let io = IoText(io);
                write!(f, "{io}")
            }
            Answer::Begun(true) => f.write_str("active"),
            Answer::Ended(true) => f.write_str("ended"),
            Answer::Begun(false) | Answer::Ended(false) => f.write_str("nothing"),
            Answer::Held => f.write_str("held"),
            Answer::Changed(number) => write!(f, "change {number}"),
            Answer::Staged(edits) => write!(f, "staged {edits}"),
            Answer::Left(edits) => write!(f, "left {edits}"),
            Answer::Aborted => f.write_str("aborted"),
            Answer::Undone(number) => write!(f, "undone {number}"),
            Answer::Redone(number) => write!(f, "redone {number}"),
            Answer::Shown(counts) => {
                let counts = CountsText(counts);
                write!(f, "{counts}")
            }
            Answer::Refused(why) => {
                let refusal = Refusal::from(why);
                write!(f, "{refusal}")
            }
        }
    }
}
