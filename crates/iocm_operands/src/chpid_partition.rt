ghost use Rattle.std.specs.Prelude.{◌≡◌, map, IfOk};
ghost use Rattle.std.specs.List.{list_any};
ghost use Rattle.iocm_statements.specs.Unread.{Reads};
ghost use Rattle.iocm_operands.specs.ChpidPartition as meaning;
ghost use Rattle.iocm_values.specs.Value.{seen};

use iocm_statements::Unread;
use iocm_types::{Css, List, Name};
use iocm_values::{Value, begins_with_css, css_number, names_of, values};
use std::alloc::{AllocError, Global};

/// What PARTITION of a CHPID says.
#[derive(Drop)]
pub struct Partition {
    /// The names of the access list, ascending with each once.
    pub access: List<Name>,
    /// The names of the candidate list, if one is written, in the same order.
    pub candidates: Option<List<Name>>,
    /// Whether its last item is REC.
    pub is_reconfigurable: bool,
}

fn copy_values<'a>(alloc: Global, items: &[Value<'a>]) -> Result<Vec<Value<'a>>, AllocError>
    ensures { IfOk result (λ copies. copies.items ≡ items.now) }
{
    Vec::from_slice(alloc, items)
}

fn is_own(css: Css, text: &[u8]) -> bool
    ensures { result ≡ meaning.is_own css text.now }
{
    match css_number(text) {
        Some(number) => number == css,
        None => false,
    }
}

// What stands behind CSS(n), if n is the path's own channel subsystem.
fn own_items<'a>(alloc: Global, css: Css, items: &[Value<'a>]) -> Result<Vec<Value<'a>>, Unread>
    ensures { Reads (λ v. map seen v.items) result (meaning.own_items css (map seen items.now)) }
{
    match items {
        [Value::Word(text), rest @ ..] => {
            if rest.is_empty() || !is_own(css, text) {
                return Err(Unread::Malformed);
            }
            Ok(copy_values(alloc, rest)?)
        }
        _ => Err(Unread::Malformed),
    }
}

fn without_group<'a>(
    alloc: Global,
    css: Css,
    items: Vec<Value<'a>>,
) -> Result<Vec<Value<'a>>, Unread>
    ensures { Reads (λ v. map seen v.items) result (meaning.without_group css (map seen items.entry.items)) }
{
    if begins_with_css(&items) {
        return own_items(alloc, css, &items);
    }
    Ok(items)
}

// The items, without the group of the path's own channel subsystem round them.
fn without_groups<'a>(
    alloc: Global,
    css: Css,
    items: Vec<Value<'a>>,
) -> Result<Vec<Value<'a>>, Unread>
    ensures { Reads (λ v. map seen v.items) result (meaning.without_groups css (map seen items.entry.items)) }
{
    match items.as_slice() {
        [Value::List(inner)] => {
            let inner = values(alloc, inner)?;
            if begins_with_css(&inner) {
                return own_items(alloc, css, &inner);
            }
            Ok(items)
        }
        _ => without_group(alloc, css, items),
    }
}

// A list, `0` or `=`.
fn is_list_form(value: Value) -> bool
    ensures { result ≡ meaning.is_list_form (seen value.entry) }
{
    match value {
        Value::Word(text) => text == b"0".as_slice() || text == b"=".as_slice(),
        Value::List(_) => true,
    }
}

/// Whether one of the items is a list, `0` or `=`.
#[tactic(auto, using(iocm_values::proofs::Looking::any_steps))]
pub fn has_list_form(items: &[Value]) -> bool
    ensures { result ≡ list_any meaning.is_list_form (map seen items.now) }
{
    for item in items {
        if is_list_form(*item) {
            return true;
        }
    }
    false
}

fn only_name(alloc: Global, value: Value) -> Result<List<Name>, Unread>
    ensures { Reads (λ v. v) result (meaning.names_alone (seen value.entry)) }
{
    let only = [value];
    names_of(alloc, &only)
}

// The names of an access list: a list of names, a name alone, or `0` or `(0)` for none.
fn names_listed(alloc: Global, value: Value) -> Result<List<Name>, Unread>
    ensures { Reads (λ v. v) result (meaning.names_listed (seen value.entry)) }
{
    match value {
        Value::Word(text) if text == b"0".as_slice() => Ok(List::from_vec(Vec::new(alloc))),
        Value::Word(_) => only_name(alloc, value),
        Value::List(inner) if inner == b"0".as_slice() => Ok(List::from_vec(Vec::new(alloc))),
        Value::List(inner) => {
            let items = values(alloc, inner)?;
            names_of(alloc, &items)
        }
    }
}

fn is_same_list(value: Value) -> bool
    ensures { result ≡ meaning.is_same_list (seen value.entry) }
{
    match value {
        Value::Word(text) => text == b"=".as_slice(),
        Value::List(inner) => inner == b"=".as_slice(),
    }
}

fn candidates_listed(alloc: Global, access: &List<Name>, value: Value) -> Result<List<Name>, Unread>
    ensures { Reads (λ v. v) result (meaning.candidates_listed access.now (seen value.entry)) }
{
    if is_same_list(value) {
        return Ok(access.copy_in(alloc)?);
    }
    names_listed(alloc, value)
}

// An access list alone, or an access and a candidate list.
fn listed(alloc: Global, is_reconfigurable: bool, items: &[Value]) -> Result<Partition, Unread>
    ensures { Reads (λ p. p) result (meaning.listed is_reconfigurable (map seen items.now)) }
{
    match items {
        [first] => Ok(Partition {
            access: names_listed(alloc, *first)?,
            candidates: None,
            is_reconfigurable,
        }),
        [first, second] => {
            let access = names_listed(alloc, *first)?;
            let candidates = candidates_listed(alloc, &access, *second)?;
            Ok(Partition {
                access,
                candidates: Some(candidates),
                is_reconfigurable,
            })
        }
        _ => Err(Unread::Malformed),
    }
}

fn lists(alloc: Global, is_reconfigurable: bool, items: &[Value]) -> Result<Partition, Unread>
    ensures { Reads (λ p. p) result (meaning.lists is_reconfigurable (map seen items.now)) }
{
    if has_list_form(items) {
        return listed(alloc, is_reconfigurable, items);
    }
    Ok(Partition {
        access: names_of(alloc, items)?,
        candidates: None,
        is_reconfigurable,
    })
}

fn is_rec(value: Value) -> bool
    ensures { result ≡ meaning.is_rec (seen value.entry) }
{
    match value {
        Value::Word(text) => text == b"REC".as_slice(),
        Value::List(_) => false,
    }
}

/// Whether the last item is REC.
pub fn ends_with_rec(items: &[Value]) -> bool
    ensures { result ≡ meaning.ends_with_rec (map seen items.now) }
{
    match items.last() {
        Some(item) => is_rec(*item),
        None => false,
    }
}

// A last REC makes the path reconfigurable, and isn't of the lists.
fn with_rec(alloc: Global, items: &[Value]) -> Result<Partition, Unread>
    ensures { Reads (λ p. p) result (meaning.with_rec (map seen items.now)) }
{
    if !ends_with_rec(items) {
        return lists(alloc, false, items);
    }
    let (front, _) = items.split_at(items.len().saturating_sub(1));
    lists(alloc, true, front)
}

/// The lists of PARTITION of a path of this channel subsystem: names, which are the access list; or
/// an access list, and a candidate list or none. Each is a list of names, a name, or `0` for no
/// names, and the second may be `=` for the first. REC may stand last, and `CSS(n)` of the path's
/// own channel subsystem first.
pub fn partition_of(alloc: Global, css: Css, value: Value) -> Result<Partition, Unread>
    ensures { Reads (λ p. p) result (meaning.partition_of css (seen value.entry)) }
{
    let items = value.items(alloc)?;
    let items = without_groups(alloc, css, items)?;
    with_rec(alloc, &items)
}
