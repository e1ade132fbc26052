//! The calls of a round, each at its line. A line keeps the place of its call in the trace and not
//! the answer, which the trace has: so the answers of a long script lie in memory once.
ghost use Rattle.std.specs.Prelude.{◌≡◌, ◌++◌, IfOk, OnOk};
ghost use Rattle.iocm_operation.specs.Placing.{given_place, places_of_hands, AreCut, Places, Takes};

use crate::placed::Placed;
use iocm_script::{ImageThread, Line, OperatorThread, Said};
use iocm_system::Receipt;
use std::alloc::AllocError;

/// The receipts of each actor that its lines have not taken yet.
#[derive(Clone, Copy)]
pub(crate) struct Hands<'a> {
    pub p: &'a [Receipt],
    pub q: &'a [Receipt],
    pub a: &'a [Receipt],
    pub b: &'a [Receipt],
}

/// The place that a line takes, if there is one for it, and what is left.
fn take<'a>(said: &Said, hands: Hands<'a>) -> (Option<u64>, Hands<'a>)
    ensures { Takes said.now hands.entry result.0 result.1 }
{
    let Hands { p, q, a, b } = hands;
    match said {
        Said::Operator(OperatorThread::P, _) => {
            let (first, p) = cut(p);
            (first, Hands { p, q, a, b })
        }
        Said::Operator(OperatorThread::Q, _) => {
            let (first, q) = cut(q);
            (first, Hands { p, q, a, b })
        }
        Said::Image(ImageThread::A, _) => {
            let (first, a) = cut(a);
            (first, Hands { p, q, a, b })
        }
        Said::Image(ImageThread::B, _) => {
            let (first, b) = cut(b);
            (first, Hands { p, q, a, b })
        }
    }
}

/// The number of the first of some receipts, if there is one, and the others.
fn cut(receipts: &[Receipt]) -> (Option<u64>, &[Receipt])
    ensures { AreCut receipts.now result.0 result.1.now }
{
    match receipts.split_first() {
        Some((first, rest)) => (Some(first.number), rest),
        None => (None, receipts),
    }
}

/// Adds a line with the place of its call, if there is one.
fn add(places: &mut Vec<Placed>, line: usize, first: Option<u64>) -> Result<(), AllocError>
    ensures { OnOk result (places.new.items ≡ places.old.items ++ given_place line first) }
{
    let Some(number) = first else {
        return Ok(());
    };
    places.push(Placed { line, number })?;
    Ok(())
}

/// Adds a line with the place of its call, and gives what is left.
fn place_line<'a>(
    line: &Line,
    hands: Hands<'a>,
    places: &mut Vec<Placed>,
) -> Result<Hands<'a>, AllocError>
    ensures { IfOk result (λ left. Places line.now hands.entry left places.old.items places.new.items) }
{
    let (first, left) = take(&line.said, hands);
    add(places, line.line, first)?;
    Ok(left)
}

/// Adds the lines of a round, of whose receipts each line takes the next of its actor.
pub(crate) fn place_lines(
    lines: &[Line],
    hands: Hands<'_>,
    places: &mut Vec<Placed>,
) -> Result<(), AllocError>
    ensures { OnOk result (places.new.items ≡ places.old.items ++ places_of_hands lines.now hands.entry) }
{
    let mut left = hands;
    for line in lines {
        left = place_line(line, left, places)?;
    }
    Ok(())
}
