ghost use Rattle.std.specs.Prelude.{◌≡◌, [], map, IfOk, unwrap_or};
ghost use Rattle.iocm_values.specs.Value as values;
ghost use Rattle.iocm_values.specs.Value.{seen};
ghost use Rattle.iocm_change_records.specs.Listed as meaning;

use iocm_operands::{ends_with_rec, has_list_form};
use iocm_statements::{Operands, Unread};
use iocm_values::{Value, begins_with_css, values};
use std::alloc::{AllocError, Global};

/// What the items of PARTITION show, whatever they say.
#[derive(Clone, Copy)]
pub struct Shape {
    /// The last item is REC.
    pub is_reconfigurable: bool,
    /// Without it two items or more are left, one of which is a list, `0` or `=`.
    pub has_both_lists: bool,
}

fn are_both_lists(items: &[Value]) -> bool
    ensures { result ≡ meaning.are_both_lists (map seen items.now) }
{
    if items.len() < 2 {
        return false;
    }
    has_list_form(items)
}

// What items without a group round them show.
fn shape_of(items: &[Value]) -> Shape
    ensures { result ≡ meaning.shape_of (map seen items.now) }
{
    if !ends_with_rec(items) {
        return Shape {
            is_reconfigurable: false,
            has_both_lists: are_both_lists(items),
        };
    }
    let (front, _) = items.split_at(items.len().saturating_sub(1));
    Shape {
        is_reconfigurable: true,
        has_both_lists: are_both_lists(front),
    }
}

// The same of items whose first may be `CSS(..)`.
fn shape_behind_css(items: &[Value]) -> Shape
    ensures { result ≡ meaning.shape_of (meaning.behind_css (map seen items.now)) }
{
    if !begins_with_css(items) {
        return shape_of(items);
    }
    match items {
        [_, rest @ ..] => shape_of(rest),
        [] => shape_of(items),
    }
}

// The values between the commas of a text; none where it can't be cut.
fn values_or_none<'a>(alloc: Global, text: &'a [u8]) -> Result<Vec<Value<'a>>, AllocError>
    ensures { IfOk result (λ items. map seen items.items ≡ meaning.values_or_none text.now) }
{
    match values(alloc, text) {
        Ok(items) => Ok(items),
        Err(Unread::Malformed) => Ok(Vec::new(alloc)),
        Err(Unread::Memory) => Err(AllocError),
    }
}

// What items show that may be a group.
fn shape_ungrouped(alloc: Global, items: &[Value]) -> Result<Shape, AllocError>
    ensures { IfOk result (λ shape. shape ≡ meaning.shape_of (meaning.ungrouped (map seen items.now))) }
{
    match items {
        [Value::List(inner)] => {
            let group = values_or_none(alloc, inner)?;
            if begins_with_css(&group) {
                return Ok(shape_behind_css(&group));
            }
            Ok(shape_of(items))
        }
        _ => Ok(shape_behind_css(items)),
    }
}

// The items of a list; none of a word, or where the list can't be cut.
fn items_or_none<'a>(alloc: Global, value: Value<'a>) -> Result<Vec<Value<'a>>, AllocError>
    ensures { IfOk result (λ found. map seen found.items ≡ unwrap_or (values.items (seen value.entry)) []) }
{
    match value {
        Value::Word(_) => Ok(Vec::new(alloc)),
        Value::List(inner) => values_or_none(alloc, inner),
    }
}

// What PARTITION shows.
fn written_shape(alloc: Global, operands: &Operands) -> Result<Shape, AllocError>
    ensures { IfOk result (λ shape. shape ≡ meaning.written_shape operands.now) }
{
    match operands.get(b"PARTITION") {
        Some(text) => {
            let items = items_or_none(alloc, Value::new(text))?;
            shape_ungrouped(alloc, &items)
        }
        None => Ok(Shape {
            is_reconfigurable: false,
            has_both_lists: false,
        }),
    }
}

fn wants_lists(operands: &Operands, shape: Shape) -> bool
    ensures { result ≡ meaning.wants_lists operands.now shape }
{
    operands.has_bare(b"SHARED") || operands.has_bare(b"REC") || shape.is_reconfigurable
}

/// Whether a path is SHARED or REC, and its two lists aren't both written: this is judged by the
/// shape of PARTITION alone, without a group round its items and without a last REC. The rule is
/// own.
pub fn lacks_lists(alloc: Global, operands: &Operands) -> Result<bool, AllocError>
    ensures { IfOk result (λ answer. answer ≡ meaning.lacks_lists operands.now) }
{
    let shape = written_shape(alloc, operands)?;
    if shape.has_both_lists {
        return Ok(false);
    }
    Ok(wants_lists(operands, shape))
}
