ghost use Rattle.std.specs.Prelude.{◌≡◌, map};
ghost use Rattle.iocm_statements.specs.Unread.{Reads};
ghost use Rattle.iocm_operands.specs.ChpidPath as meaning;
ghost use Rattle.iocm_values.specs.Value.{seen};

use iocm_statements::Unread;
use iocm_types::{Css, CssPath};
use iocm_values::{Value, css_number, path_number, values};
use std::alloc::Global;

fn path_in(css: Css, number: &[u8]) -> Option<CssPath>
    ensures { result ≡ meaning.path_in css number.now }
{
    let path = path_number(number)?;
    Some(CssPath { css, path })
}

fn path_listed(items: &[Value]) -> Option<CssPath>
    ensures { result ≡ meaning.path_listed (map seen items.now) }
{
    match items {
        [Value::Word(number)] => path_in(Css::FIRST, number),
        [Value::Word(css), Value::Word(number)] => path_in(css_number(css)?, number),
        _ => None,
    }
}

fn path_of_items(alloc: Global, items: &[Value]) -> Result<CssPath, Unread>
    ensures { Reads (λ p. p) result (meaning.path_of_items (map seen items.now)) }
{
    match items {
        [Value::List(inner)] => {
            let items = values(alloc, inner)?;
            path_listed(&items).ok_or(Unread::Malformed)
        }
        _ => path_listed(items).ok_or(Unread::Malformed),
    }
}

/// The path of PATH of CHPID: `cc`, `(cc)` or `(CSS(n),cc)`, with one outer pair of parentheses
/// more or without.
pub fn path_of(alloc: Global, value: Value) -> Result<CssPath, Unread>
    ensures { Reads (λ p. p) result (meaning.path_of (seen value.entry)) }
{
    let items = value.items_or_one(alloc)?;
    path_of_items(alloc, &items)
}
