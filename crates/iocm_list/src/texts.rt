ghost use Rattle.std.specs.Prelude.{◌≡◌, IfOk};
ghost use Rattle.iocm_list.specs.Texts as meaning;

use iocm_record::Carried;
use iocm_types::Text;
use std::alloc::{AllocError, Global};

/// The text that a statement carries under a keyword, if it carries one.
///
/// `AllocError` (M1): memory ran out.
pub fn carried_text(
    alloc: Global,
    keyword: &[u8],
    carried: &[Carried],
) -> Result<Option<Text>, AllocError>
    ensures { IfOk result (λ text. text ≡ meaning.carried_text keyword.now carried.now) }
{
    for operand in carried {
        if has_keyword(keyword, operand) {
            return Ok(Some(operand.text().copy_in(alloc)?));
        }
    }
    Ok(None)
}

fn has_keyword(keyword: &[u8], operand: &Carried) -> bool
    ensures { result ≡ meaning.has_keyword keyword.now operand.now }
{
    match operand.keyword() {
        Some(own) => own.as_slice() == keyword,
        None => false,
    }
}
