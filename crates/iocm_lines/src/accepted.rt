use std::fmt;

/// The line of a deck that keeps the rules: how many records it has.
#[derive(Clone, Copy)]
pub struct AcceptedLine(pub usize);

/// The line without its end.
impl fmt::Display for AcceptedLine {
    ghost use Rattle.std.specs.Prelude.{Some};
    ghost use Rattle.serde_json.specs.Written.{compact_text};
    ghost use Rattle.iocm_lines.specs.Accepted.{accepted_value};

    ghost output = { λ l. Some (compact_text (accepted_value l.0)) };

    #[tactic(auto, unfolding(json::specs::Print::escape_byte))]
    fn fmt<W: fmt::Write>(&self, f: &mut fmt::Formatter<W>) -> fmt::Result {
        let records = self.0;
        write!(f, "{{\"records\":{records},\"type\":\"accepted\"}}")
    }
}
