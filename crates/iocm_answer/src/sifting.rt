ghost use Rattle.std.specs.Prelude.{◌≡◌, filter, IfOk};
ghost use Rattle.iocm_filter.specs.Sieves.{IsSieveFor};
ghost use Rattle.iocm_filter.specs.Wanted.{Wanted};
ghost use Rattle.iocm_answer.specs.Commands.Apply.{is_row_wanted};
ghost use Rattle.iocm_answer.specs.Sides as meaning;
ghost use Rattle.iocm_model.specs.Machine.Configuration.{Configuration};
ghost use Rattle.iocm_reports.specs.Altered.{AreInOrder};

use iocm_filter::Sieve;
use iocm_seats::ViewChange;
use iocm_types::{SubId, View};
use std::alloc::{AllocError, Global};

/// Of rows those that are wanted, by the sieves of the configurations before and afterwards.
///
/// `AllocError` (M1): memory ran out.
pub fn wanted_rows(
    alloc: Global,
    rows: Vec<ViewChange>,
    before: &Sieve<'_>,
    after: &Sieve<'_>,
) -> Result<Vec<ViewChange>, AllocError>
    ensures rows { (w : Wanted) (c d : Configuration) → IsSieveFor w c before.now → IsSieveFor w d after.now
        → IfOk result (λ found. found.items ≡ filter (is_row_wanted w c d) rows.items) }
    ensures order { AreInOrder rows.items → IfOk result (λ found. AreInOrder found.items) }
{
    if before.filters().is_none() {
        return Ok(rows);
    }
    passing_rows(alloc, rows.as_slice(), before, after)
}

/// Of rows those of which the view before or that afterwards passes its sieve.
fn passing_rows(
    alloc: Global,
    rows: &[ViewChange],
    before: &Sieve<'_>,
    after: &Sieve<'_>,
) -> Result<Vec<ViewChange>, AllocError>
    ensures { IfOk result (λ found. found.items ≡ filter (meaning.does_row_pass before.now after.now) rows.now) }
{
    let mut found = Vec::new(alloc);
    for row in rows {
        if passes_row(row, before, after) {
            found.push(copy_of(row))?;
        }
    }
    Ok(found)
}

/// A copy of a row.
fn copy_of(row: &ViewChange) -> ViewChange
    ensures { result ≡ row.now }
{
    ViewChange {
        subchannel: row.subchannel,
        before: row.before,
        after: row.after,
    }
}

/// Whether the view before or that afterwards passes its sieve.
fn passes_row(row: &ViewChange, before: &Sieve<'_>, after: &Sieve<'_>) -> bool
    ensures { result ≡ meaning.does_row_pass before.now after.now row.now }
{
    passes_side(before, &row.subchannel, row.before)
        || passes_side(after, &row.subchannel, row.after)
}

/// Whether there is a view, and it passes.
fn passes_side(sieve: &Sieve<'_>, subchannel: &SubId, view: Option<View>) -> bool
    ensures { result ≡ meaning.does_side_pass sieve.now subchannel.now view }
{
    match view {
        Some(view) => sieve.passes(subchannel, &view),
        None => false,
    }
}
