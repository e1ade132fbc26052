ghost use Rattle.std.specs.Prelude.{◌≡◌, ◌+◌, ◌++◌, ◌<◌, ◌^◌, sum_by, IfOk, OnOk};
ghost use Rattle.iocm_impact.specs.Rows as meaning;

use crate::row::{Row, follows, with_more};
use iocm_plan::{DeviceRun, Effect};
use std::alloc::{AllocError, Global};

/// The rows of an image, of whose runs these are the effects: the runs of which a row is told, joined where devices
/// follow each other and the same is told.
///
/// `AllocError` (M1): memory ran out.
pub fn rows_of(
    alloc: Global,
    runs: &[DeviceRun],
    effects: &[Effect],
) -> Result<Vec<Row>, AllocError>
    requires { sum_by (λ r. r.count) runs.now < 2 ^ 64 }
    ensures { IfOk result (λ rows. rows.items ≡ meaning.rows runs.now effects.now) }
{
    let told = told_rows(alloc, runs, effects)?;
    joined_rows(alloc, &told)
}

/// Each run with what is done to its devices, if a row tells it.
fn told_rows(alloc: Global, runs: &[DeviceRun], effects: &[Effect]) -> Result<Vec<Row>, AllocError>
    ensures { IfOk result (λ rows. rows.items ≡ meaning.told_rows runs.now effects.now) }
{
    runs.iter()
        .zip(effects)
        .map(|(run, effect)| Row {
            run: *run,
            effect: *effect,
        })
        .filter(|row| row.effect.has_row())
        .collect(alloc)
}

/// Rows, joined where one follows another.
fn joined_rows(alloc: Global, rows: &[Row]) -> Result<Vec<Row>, AllocError>
    requires { sum_by (λ r. r.run.count) rows.now < 2 ^ 64 }
    ensures { IfOk result (λ joined. joined.items ≡ meaning.joined rows.now) }
{
    let mut joined = Vec::new(alloc);
    if let [first, others @ ..] = rows {
        put_joined(&mut joined, *first, others)?;
    }
    Ok(joined)
}

/// Puts a row and those behind it, joined, behind others.
fn put_joined(joined: &mut Vec<Row>, first: Row, rows: &[Row]) -> Result<(), AllocError>
    requires { first.run.count + sum_by (λ r. r.run.count) rows.now < 2 ^ 64 }
    ensures { OnOk result (joined.new.items ≡ joined.old.items ++ meaning.joined_from first rows.now) }
{
    let mut row = first;
    for next in rows {
        if follows(&row, next) {
            row = with_more(&row, next.run.count);
            continue;
        }
        joined.push(row)?;
        row = *next;
    }
    joined.push(row)?;
    Ok(())
}
