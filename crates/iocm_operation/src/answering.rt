//! The answers to the lines of a script, out of the trace.
ghost use Rattle.std.specs.Prelude.{◌≡◌, IfOk, OnOk};
ghost use Rattle.iocm_operation.specs.Answering.{answers_at, AddsAnswer};

use crate::answered::Answered;
use crate::placed::Placed;
use iocm_core::Entry;
use std::alloc::{AllocError, Global};

/// Adds the answer to a line: that of the entry at its place, if there is one.
fn add(entries: &[Entry], place: &Placed, answers: &mut Vec<Answered>) -> Result<(), AllocError>
    ensures { OnOk result (AddsAnswer entries.now place.now answers.old.items answers.new.items) }
{
    match entries.get(place.number as usize) {
        Some(entry) => {
            let line = place.line;
            let answer = entry.answer;
            // The prover finds the parts of an answer by this.
            let _none: &[Answered] = &[];
            answers.push(Answered { line, answer })?;
            Ok(())
        }
        None => Ok(()),
    }
}

/// The answers to lines, each that of the entry at the line's place.
pub(crate) fn answer_lines(
    alloc: Global,
    entries: &[Entry],
    places: &[Placed],
) -> Result<Vec<Answered>, AllocError>
    ensures { IfOk result (λ answers. answers.items ≡ answers_at entries.now places.now) }
{
    let mut answers = Vec::with_capacity(alloc, places.len())?;
    for place in places {
        add(entries, place, &mut answers)?;
    }
    Ok(answers)
}
