use std::fmt;

/// The line of the trace of a script that was run: how many calls it has.
#[derive(Clone, Copy)]
pub struct TraceLine(pub usize);

/// The line without its end.
impl fmt::Display for TraceLine {
    ghost use Rattle.std.specs.Prelude.{Some};
    ghost use Rattle.serde_json.specs.Written.{compact_text};
    ghost use Rattle.iocm_lines.specs.Trace.{trace_value};

    ghost output = { λ l. Some (compact_text (trace_value l.0)) };

    #[tactic(auto, unfolding(json::specs::Print::escape_byte))]
    fn fmt<W: fmt::Write>(&self, f: &mut fmt::Formatter<W>) -> fmt::Result {
        let calls = self.0;
        write!(f, "{{\"calls\":{calls},\"type\":\"trace\"}}")
    }
}
