ghost use Rattle.std.specs.Prelude.{◌≡◌, ◌≢◌, ◌↔◌, true, Err, IfOk, IfSome, IsSome};
ghost use Rattle.iocm_types.specs.Fault.{memory};
ghost use Rattle.iocm_console.specs.Refusal.{of_fault};
ghost use Rattle.iocm_origin.specs.Origin as meaning;

use iocm_console::{About, Refusal, read_statements};
use iocm_statements::Statement;
use iocm_types::{Fault, Rule};
use std::alloc::{AllocError, Global};

/// Where in a text a refusal comes from. The word is own.
#[derive(Clone, Copy, PartialEq, Eq)]
pub enum Origin {
    /// The line of this number, counted from 1.
    Line(usize),
    /// The end: the rules are checked there once more.
    End,
    /// The text as a whole.
    Whole,
}

/// The line of this number, or the end where there is none.
pub(crate) fn line_or_end(line: Option<usize>) -> Origin
    ensures { result ≡ meaning.line_or_end line }
{
    match line {
        Some(line) => Origin::Line(line),
        None => Origin::End,
    }
}

/// The line that a refusal is about, or the whole text.
pub(crate) fn line_or_whole(about: About) -> Origin
    ensures { result ≡ meaning.line_or_whole about }
{
    match about {
        About::Line(line) => Origin::Line(line),
        _ => Origin::Whole,
    }
}

/// A fault that a reader answered, if it is one of the text. That memory ran out is none.
fn of_the_text(fault: Fault) -> Result<Fault, AllocError>
    ensures same { IfOk result (λ told. told ≡ fault) }
    ensures text { IfOk result (λ told. fault ≢ memory) }
{
    if fault.rule == Rule::M1 {
        return Err(AllocError);
    }
    Ok(fault)
}

/// What a reader answered, if it is what it says of the text.
pub(crate) fn told<T: Drop>(read: Result<T, Fault>) -> Result<Result<T, Fault>, AllocError>
    ensures same { IfOk result (λ told. told ≡ read) }
    ensures text { IfOk result (λ told. read ≢ Err memory) }
{
    match read {
        Ok(value) => Ok(Ok(value)),
        Err(fault) => Ok(Err(of_the_text(fault)?)),
    }
}

/// The line of a text's first fault, if that is the refusal.
///
/// `AllocError` (M1): the text has no fault of its own, memory ran out.
pub(crate) fn origin_of_fault(fault: Fault, why: Refusal) -> Result<Option<Origin>, AllocError>
    ensures some { IfOk result (λ found. IfSome found
        (λ origin. (of_fault fault ≡ why) × (origin ≡ meaning.line_or_whole why.about))) }
    ensures only { IfOk result (λ found. of_fault fault ≡ why → IsSome found) }
    ensures text { IfOk result (λ found. fault ≢ memory) }
{
    let told = Refusal::from(of_the_text(fault)?);
    if !is_same(told, why) {
        return Ok(None);
    }
    Ok(Some(line_or_whole(why.about)))
}

/// The statements of a text, none if it has a fault.
///
/// `AllocError` (M1): memory ran out.
pub(crate) fn statements_or_none(alloc: Global, text: &[u8]) -> Result<Vec<Statement>, AllocError>
    ensures { IfOk result (λ v. v.items ≡ meaning.statements_of text.now) }
{
    Ok(told(read_statements(alloc, text))?.unwrap_or(Vec::new(alloc)))
}

/// Whether two refusals are one.
pub(crate) fn is_same(one: Refusal, other: Refusal) -> bool
    ensures { (result ≡ true) ↔ (one ≡ other) }
{
    if one.number != other.number {
        return false;
    }
    if one.node != other.node {
        return false;
    }
    is_same_about(one.about, other.about)
}

/// Whether refusals are about one thing.
fn is_same_about(one: About, other: About) -> bool
    ensures { (result ≡ true) ↔ (one ≡ other) }
{
    match (one, other) {
        (About::Line(one), About::Line(other)) => one == other,
        (About::Key(one), About::Key(other)) => one.order(other).is_eq(),
        (About::Subchannel(one), About::Subchannel(other)) => one.order(other).is_eq(),
        (About::Change(one), About::Change(other)) => one == other,
        (About::Nothing, About::Nothing) => true,
        _ => false,
    }
}
