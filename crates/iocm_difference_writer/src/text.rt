ghost use Rattle.std.specs.Prelude.{◌≡◌, ◌++◌, IfOk, OnOk};
ghost use Rattle.std.specs.Option.{option_map};
ghost use Rattle.iocm_difference_writer.specs.Runs.{actions_in};
ghost use Rattle.iocm_difference_writer.specs.Text as meaning;

use crate::comments::put_comments;
use crate::lines::run_lines;
use crate::runs::first_run;
use iocm_columns::deck_bytes;
use iocm_config::Config;
use iocm_tree::Edit;
use std::alloc::{AllocError, Allocator, Global};

/// Puts the text of a run behind other text.
fn put_run<A: Allocator, B: Allocator>(
    alloc: Global,
    old: Option<&Config<B>>,
    run: &[Edit<A>],
    text: &mut Vec<u8>,
) -> Result<(), AllocError>
    ensures { OnOk result (text.new.items ≡ text.old.items
        ++ meaning.run_text (option_map (λ c. c.now.records) old.entry) (actions_in run.now)) }
{
    put_comments(alloc, old, run, text)?;
    let lines = run_lines(alloc, run)?;
    text.extend_from_slice(&deck_bytes(alloc, &lines)?)?;
    Ok(())
}

/// The text of edits: a change deck that has them in their order, with no ROW round it. In one
/// statement stand devices that follow each other and have one verb: those that are added or
/// modified as in the canonical deck, those that are deleted by number, at most 4,096 of them. So
/// do the pairs of one path. Each other edit has a statement of its own. What comes along with an
/// edit isn't written.
///
/// Where `old` is given, what it has of what a run deletes or modifies stands before the run: the
/// cards of the canonical deck, with `*` in column 1. Of pairs a deck has no cards.
///
/// `AllocError` (M1): memory ran out.
pub fn difference_text<A: Allocator, B: Allocator>(
    alloc: Global,
    old: Option<&Config<B>>,
    edits: &[Edit<A>],
) -> Result<Vec<u8>, AllocError>
    ensures { IfOk result (λ text. text.items
        ≡ meaning.difference_text (option_map (λ c. c.now.records) old.entry) (actions_in edits.now)) }
{
    let mut text = Vec::new(alloc);
    let mut rest = edits;
    while !rest.is_empty() {
        let (run, others) = rest.split_at(first_run(rest));
        put_run(alloc, old, run, &mut text)?;
        rest = others;
    }
    Ok(text)
}
