use bitflags::Flags;
use iocm_types::{Io, ScswBits, Stored};
use std::fmt;
use std::fmt::Display;

/// The answer to the order in a line of a script: the condition code, and what TEST or STORE gave.
#[derive(Clone, Copy)]
pub(crate) struct OrderAnswer {
    /// The line of the script, counted from 1.
    pub line: usize,
    /// The answer.
    pub io: Io,
}

impl fmt::Display for OrderAnswer {
    ghost use Rattle.std.specs.Prelude.{Some};
    ghost use Rattle.serde_json.specs.Written.{compact_text};
    ghost use Rattle.iocm_lines.specs.Answer.{order_answer};

    ghost output = { λ a. Some (compact_text (order_answer a.line a.io)) };

    fn fmt<W: fmt::Write>(&self, f: &mut fmt::Formatter<W>) -> fmt::Result {
        match self.io {
            Io::Code(code) => CodeAnswer(self.line, code).fmt(f),
            Io::Status(bits) => StatusAnswer(self.line, bits).fmt(f),
            Io::Stored(stored) => StoredAnswer(self.line, stored).fmt(f),
        }
    }
}

/// The answer to this line is a condition code.
#[derive(Clone, Copy)]
struct CodeAnswer(usize, u8);

impl fmt::Display for CodeAnswer {
    ghost use Rattle.std.specs.Prelude.{Some};
    ghost use Rattle.serde_json.specs.Written.{compact_text};
    ghost use Rattle.iocm_lines.specs.Answer.{code_answer};

    ghost output = { λ a. Some (compact_text (code_answer a.0 a.1)) };

    #[tactic(auto, unfolding(json::specs::Print::escape_byte))]
    fn fmt<W: fmt::Write>(&self, f: &mut fmt::Formatter<W>) -> fmt::Result {
        let line = self.0;
        let code = self.1;
        write!(
            f,
            "{{\"answer\":\"cc\",\"cc\":{code},\"line\":{line},\"type\":\"answer\"}}"
        )
    }
}

/// The answer to this line is condition code 0 and the status that was pending.
#[derive(Clone, Copy)]
struct StatusAnswer(usize, ScswBits);

impl fmt::Display for StatusAnswer {
    ghost use Rattle.std.specs.Prelude.{Some};
    ghost use Rattle.serde_json.specs.Written.{compact_text};
    ghost use Rattle.iocm_lines.specs.Answer.{status_answer};

    ghost output = { λ a. Some (compact_text (status_answer a.0 a.1)) };

    fn fmt<W: fmt::Write>(&self, f: &mut fmt::Formatter<W>) -> fmt::Result {
        let line = self.0;
        let bits = BitsText(self.1);
        write!(
            f,
            "{{\"answer\":\"cc\",\"cc\":0,\"line\":{line},\"scsw\":\"{bits}\",\"type\":\"answer\"}}"
        )
    }
}

/// The answer to this line is condition code 0 and what STORE SUBCHANNEL gave.
#[derive(Clone, Copy)]
struct StoredAnswer(usize, Stored);

impl fmt::Display for StoredAnswer {
    ghost use Rattle.std.specs.Prelude.{Some};
    ghost use Rattle.serde_json.specs.Written.{compact_text};
    ghost use Rattle.iocm_lines.specs.Answer.{stored_answer};

    ghost output = { λ a. Some (compact_text (stored_answer a.0 a.1)) };

    fn fmt<W: fmt::Write>(&self, f: &mut fmt::Formatter<W>) -> fmt::Result {
        let line = self.0;
        let device = self.1.device;
        let enabled = self.1.enabled;
        let lpm = self.1.lpm;
        let pam = self.1.pam;
        let parm = ParmText(self.1.parm);
        let pim = self.1.pim;
        let bits = BitsText(self.1.bits);
        write!(
            f,
            "{{\"answer\":\"cc\",\"cc\":0,\"device\":\"{device}\",\"enabled\":{enabled},\"line\":{line},\
             \"lpm\":\"{lpm}\",\"pam\":\"{pam}\",\"parm\":\"{parm}\",\"pim\":\"{pim}\",\
             \"scsw\":\"{bits}\",\"type\":\"answer\"}}"
        )
    }
}

/// The status bits, one hexadecimal digit.
#[derive(Clone, Copy)]
struct BitsText(ScswBits);

impl fmt::Display for BitsText {
    ghost use Rattle.std.specs.Prelude.{Some};
    ghost use Rattle.iocm_types.specs.Print.{hex1};

    ghost output = { λ b. Some (hex1 b.0.0) };

    fn fmt<W: fmt::Write>(&self, f: &mut fmt::Formatter<W>) -> fmt::Result {
        let bits = self.0.bits();
        write!(f, "{bits:X}")
    }
}

/// An interruption parameter, eight hexadecimal digits.
#[derive(Clone, Copy)]
struct ParmText(u32);

impl fmt::Display for ParmText {
    ghost use Rattle.std.specs.Prelude.{Some};
    ghost use Rattle.iocm_lines.specs.Members.{hex8};

    ghost output = { λ p. Some (hex8 p.0) };

    fn fmt<W: fmt::Write>(&self, f: &mut fmt::Formatter<W>) -> fmt::Result {
        let parm = self.0;
        write!(f, "{parm:08X}")
    }
}
