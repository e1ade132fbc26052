ghost use Rattle.std.specs.Prelude.{◌≡◌, ◌++◌, IfOk, OnOk};
ghost use Rattle.iocm_impact_text.specs.RowText as meaning;

use iocm_plan::DeviceRun;
use iocm_types::DevNo;
use iocm_words::{DeviceNumbers, devices_word, put_blanks};
use std::alloc::{AllocError, Global};

/// The places on which devices are told in a row.
const WIDTH: usize = 19;

/// A run of devices with their number, as `2000-207F (128)`; one alone, as `1.2080`.
///
/// `AllocError` (M1): memory ran out.
pub fn run_word(alloc: Global, run: &DeviceRun) -> Result<Vec<u8>, AllocError>
    ensures { IfOk result (λ word. word.items ≡ meaning.run_word run.now) }
{
    let numbers = [numbers_of(run)];
    let mut word = devices_word(alloc, numbers.as_slice())?;
    put_count(&mut word, alloc, run.count)?;
    Ok(word)
}

/// Puts a run behind a text, on 19 places.
pub(crate) fn put_run(text: &mut Vec<u8>, alloc: Global, run: &DeviceRun) -> Result<(), AllocError>
    ensures { OnOk result (text.new.items ≡ text.old.items ++ meaning.padded 19 (meaning.run_word run.now)) }
{
    let word = run_word(alloc, run)?;
    let blanks = WIDTH.saturating_sub(word.len());
    text.extend_from_slice(&word)?;
    put_blanks(text, blanks)?;
    Ok(())
}

/// Puts the number of devices behind them, if there are several.
fn put_count(word: &mut Vec<u8>, alloc: Global, count: usize) -> Result<(), AllocError>
    ensures { OnOk result (word.new.items ≡ word.old.items ++ meaning.count_part count) }
{
    if count > 1 {
        let told = format!(in alloc; " ({count})")?;
        word.extend_from_slice(told.as_bytes())?;
    }
    Ok(())
}

fn numbers_of(run: &DeviceRun) -> DeviceNumbers
    ensures { result ≡ meaning.numbers_of run.now }
{
    DeviceNumbers {
        set: run.first.set,
        first: run.first.number,
        last: last_of(run),
    }
}

/// The last device of a run; there is none after FFFF.
fn last_of(run: &DeviceRun) -> DevNo
    ensures { result ≡ meaning.last_of run.now }
{
    let more = run.count.saturating_sub(1).min(0xFFFF);
    let last = (usize::from(run.first.number.number()) + more).min(0xFFFF);
    DevNo::new(last as u16)
}
