ghost use Rattle.std.specs.Prelude.{◌≡◌, ◌++◌, OnOk};
ghost use Rattle.iocm_impact_text.specs.Texts as meaning;

use iocm_impact::{Counts, Impact};
use iocm_words::grouped_word;
use std::alloc::{AllocError, Global};

/// Puts the line of totals behind a text: how many images are affected, and how many devices have each mark for some
/// image.
///
/// `AllocError` (M1): memory ran out.
pub fn put_totals(text: &mut Vec<u8>, alloc: Global, impact: &Impact) -> Result<(), AllocError>
    ensures { OnOk result (text.new.items ≡ text.old.items ++ meaning.totals_line impact.now) }
{
    let devices = impact.devices();
    put_affected(text, alloc, impact.images().len(), impact.all())?;
    put_seen(text, alloc, &devices)?;
    put_paths(text, alloc, &devices)?;
    text.push(b'\n')?;
    Ok(())
}

fn put_affected(
    text: &mut Vec<u8>,
    alloc: Global,
    affected: usize,
    all: usize,
) -> Result<(), AllocError>
    ensures { OnOk result (text.new.items ≡ text.old.items ++ meaning.images_total affected all) }
{
    let told = format!(in alloc; "Images: {affected} of {all} affected. Devices: ")?;
    text.extend_from_slice(told.as_bytes())?;
    Ok(())
}

/// Puts how many devices are seen otherwise.
fn put_seen(text: &mut Vec<u8>, alloc: Global, counts: &Counts) -> Result<(), AllocError>
    ensures { OnOk result (text.new.items ≡ text.old.items ++ meaning.seen_total counts.now) }
{
    put_counted(text, alloc, counts.gone, b" gone, ")?;
    put_counted(text, alloc, counts.came, b" came, ")?;
    put_counted(text, alloc, counts.changed, b" changed; ")?;
    Ok(())
}

/// Puts of how many devices paths are lost, or go off and on.
fn put_paths(text: &mut Vec<u8>, alloc: Global, counts: &Counts) -> Result<(), AllocError>
    ensures { OnOk result (text.new.items ≡ text.old.items ++ meaning.paths_total counts.now) }
{
    put_counted(text, alloc, counts.lost, b" lost, ")?;
    put_counted(text, alloc, counts.interrupted, b" interrupted, ")?;
    put_counted(text, alloc, counts.one_path, b" with one path left, ")?;
    put_counted(text, alloc, counts.off_and_on, b" off and on.")?;
    Ok(())
}

/// Puts a count behind a text, with commas, and words behind it.
fn put_counted(
    text: &mut Vec<u8>,
    alloc: Global,
    count: usize,
    words: &[u8],
) -> Result<(), AllocError>
    ensures { OnOk result (text.new.items ≡ text.old.items ++ meaning.counted count words.now) }
{
    let word = grouped_word(alloc, count as u64)?;
    text.extend_from_slice(&word)?;
    text.extend_from_slice(words)?;
    Ok(())
}
