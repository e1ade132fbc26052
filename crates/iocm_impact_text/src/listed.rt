ghost use Rattle.std.specs.Prelude.{◌≡◌, ◌++◌, OnOk};
ghost use Rattle.std.specs.List.{flat_map};
ghost use Rattle.iocm_impact_text.specs.Listed as meaning;

use iocm_types::Text;
use std::alloc::AllocError;

/// Puts words behind a text, with a comma and a blank between them.
///
/// `AllocError` (M1): memory ran out.
pub fn put_listed(text: &mut Vec<u8>, words: &[Text]) -> Result<(), AllocError>
    ensures { OnOk result (text.new.items ≡ text.old.items ++ meaning.listed words.now) }
{
    if let [first, others @ ..] = words {
        text.extend_from_slice(first.as_slice())?;
        put_others(text, others)?;
    }
    Ok(())
}

/// Puts words behind a text, each behind a comma.
fn put_others(text: &mut Vec<u8>, words: &[Text]) -> Result<(), AllocError>
    ensures { OnOk result (text.new.items ≡ text.old.items ++ flat_map meaning.behind_comma words.now) }
{
    for word in words {
        put_behind_comma(text, word)?;
    }
    Ok(())
}

fn put_behind_comma(text: &mut Vec<u8>, word: &Text) -> Result<(), AllocError>
    ensures { OnOk result (text.new.items ≡ text.old.items ++ meaning.behind_comma word.now) }
{
    text.extend_from_slice(b", ")?;
    text.extend_from_slice(word.as_slice())?;
    Ok(())
}
