ghost use Rattle.std.specs.Prelude.{◌≡◌, ◌++◌, codes, OnOk};
ghost use Rattle.std.specs.Option.{option_copied, option_map};
ghost use Rattle.serde_json.specs.Data.{string};
ghost use Rattle.serde_json.specs.Written.{compact_text};
ghost use Rattle.iocm_lines.specs.Lines.{with_comma_if_there};
ghost use Rattle.iocm_record_lines.specs.Records.{operand_value, operands_value};

use crate::put::put_comma;
use crate::quoting::put_quoted;
use iocm_record::Carried;
use iocm_types::Text;
use std::alloc::{AllocError, Allocator};

/// Puts the operands that a statement carries along, in their order.
pub(crate) fn put_operands<A: Allocator>(
    text: &mut Vec<u8>,
    carried: &[Carried<A>],
) -> Result<(), AllocError>
    ensures { OnOk result (text.new.items ≡ text.old.items ++ compact_text (operands_value carried.now)) }
{
    text.push(b'[')?;
    let mut later = false;
    for operand in carried {
        put_comma(text, later)?;
        put_operand(text, operand)?;
        later = true;
    }
    text.push(b']')?;
    Ok(())
}

/// Puts one of them: its keyword, if it has one, and its text as it stands.
fn put_operand<A: Allocator>(text: &mut Vec<u8>, operand: &Carried<A>) -> Result<(), AllocError>
    ensures { OnOk result (text.new.items ≡ text.old.items ++ compact_text (operand_value operand.now)) }
{
    text.push(b'{')?;
    put_keyword(text, operand.keyword())?;
    text.extend_from_slice(b"\"text\":")?;
    put_quoted(text, operand.text().as_slice())?;
    text.push(b'}')?;
    Ok(())
}

/// Puts a keyword, if there is one, with a comma.
fn put_keyword<A: Allocator>(
    text: &mut Vec<u8>,
    keyword: Option<&Text<A>>,
) -> Result<(), AllocError>
    ensures { OnOk result (text.new.items ≡ text.old.items
        ++ with_comma_if_there (codes "keyword") (option_map string (option_copied keyword.entry))) }
{
    let Some(keyword) = keyword else {
        return Ok(());
    };
    text.extend_from_slice(b"\"keyword\":")?;
    put_quoted(text, keyword.as_slice())?;
    text.push(b',')?;
    Ok(())
}
