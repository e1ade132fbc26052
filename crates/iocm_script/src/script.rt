ghost use Rattle.std.specs.Prelude.{◌≡◌, IfOk};
ghost use Rattle.iocm_script.specs.Scripts.{rounds_of};

use crate::Line;
use crate::line::Spoken;
use iocm_types::List;
use std::alloc::{AllocError, Global};
use std::marker::Model;

/// A script: its rounds, in order, each with the lines of its actors in the order of the text.
///
/// There is one round more than lines `sync`, so a round may be empty: the last one where nothing
/// follows a `sync`, and one between two of them. Contracts see the list of the rounds.
#[derive(Drop)]
pub struct Script {
    rounds: Vec<List<Line>>,
}

impl Model for Script {
    ghost use Rattle.std.specs.Prelude.{List};
    ghost use Rattle.iocm_script.specs.declared.line.Line as declared;

    ghost Value = { List (List declared.Line) };

    ghost view = { λ s. s.rounds.items };
}

impl Script {
    /// The rounds, in their order.
    pub fn rounds(&self) -> &[List<Line>]
        ensures { result.now ≡ self.now }
    {
        self.rounds.as_slice()
    }
}

/// The rounds of a script's lines.
#[tactic(auto, using(crate::proofs::Cutting::cutting))]
pub(crate) fn make_rounds(alloc: Global, lines: &[Spoken]) -> Result<Script, AllocError>
    ensures { IfOk result (λ script. script ≡ rounds_of lines.now) }
{
    let mut rounds = Vec::new(alloc);
    let mut round = Vec::new(alloc);
    for spoken in lines {
        match *spoken {
            Spoken::Nothing => {}
            Spoken::Sync => {
                rounds.push(List::from_vec(round))?;
                round = Vec::new(alloc);
            }
            Spoken::Line(line) => round.push(line)?,
        }
    }
    rounds.push(List::from_vec(round))?;
    Ok(Script { rounds })
}
