ghost use Rattle.std.specs.Prelude.{◌≡◌, ◌++◌, map, IfOk, OnOk};
ghost use Rattle.std.specs.Cmp.Lexicographic.{pointwise};
ghost use Rattle.iocm_objects.specs.Runs as meaning;

use crate::object::Object;
use crate::told::Told;
use iocm_types::{DevNo, Key};
use std::alloc::{AllocError, Global};

/// Objects of which the same is told: devices whose numbers follow each other, or one object.
#[derive(Clone, Copy)]
pub struct Run<'a> {
    /// The first of them.
    pub first: &'a Object,
    /// How many there are.
    pub count: u32,
}

/// The runs of objects: devices are joined while the number is one more, the change is the same, and the fields are told
/// alike, unit addresses each one more. The time is that of one walk.
///
/// `AllocError` (M1): memory ran out.
///
/// Promise: the runs of a plan's objects, written out, are the objects.
pub fn runs_of<'a>(alloc: Global, objects: &'a [Object]) -> Result<Vec<Run<'a>>, AllocError>
    ensures { IfOk result (λ runs. map meaning.run_of runs.items ≡ meaning.runs objects.entry.now) }
{
    let mut runs = Vec::new(alloc);
    if let [first, others @ ..] = objects {
        put_runs(&mut runs, first, others)?;
    }
    Ok(runs)
}

/// Puts the runs of an object and of those behind it behind others.
fn put_runs<'a>(
    runs: &mut Vec<Run<'a>>,
    first: &'a Object,
    objects: &'a [Object],
) -> Result<(), AllocError>
    ensures { OnOk result (map meaning.run_of runs.new.items
        ≡ map meaning.run_of runs.old.items
        ++ meaning.runs_from (meaning.alone first.entry.now) objects.entry.now) }
{
    let mut first = first;
    let mut count = 1;
    for object in objects {
        if let Some(longer) = continued(first, count, object) {
            count = longer;
            continue;
        }
        runs.push(Run { first, count })?;
        first = object;
        count = 1;
    }
    runs.push(Run { first, count })?;
    Ok(())
}

/// How many objects a run has with one more, if that continues it.
fn continued(first: &Object, count: u32, object: &Object) -> Option<u32>
    ensures { result ≡ meaning.continued (record { first = first.now; count = count }) object.now }
{
    if first.change == object.change
        && are_told_alike(count, first.told.as_slice(), object.told.as_slice())
    {
        next_count(&first.key, count, &object.key)
    } else {
        None
    }
}

/// How many devices there are with one more, if its key follows.
fn next_count(first: &Key, count: u32, key: &Key) -> Option<u32>
    ensures { result ≡ meaning.next_count first.now count key.now }
{
    match (first, key) {
        (Key::Device(set, first), Key::Device(own, number)) if own == set => {
            next_number(*first, count, *number)
        }
        _ => None,
    }
}

/// How many numbers there are with one more, if it follows.
fn next_number(first: DevNo, count: u32, number: DevNo) -> Option<u32>
    ensures { result ≡ meaning.next_number first count number }
{
    let next = u64::from(first.number()) + u64::from(count);
    if u64::from(number.number()) != next {
        return None;
    }
    Some(count + 1)
}

/// Whether the same is told of a device so many after another.
#[tactic(auto, using(iocm_difference::proofs::SameLists::same_steps))]
fn are_told_alike(count: u32, first: &[Told], told: &[Told]) -> bool
    ensures { result ≡ pointwise (meaning.is_told_alike count) first.now told.now }
{
    if first.len() != told.len() {
        return false;
    }
    for index in 0..first.len() {
        if !is_told_alike(count, &first[index], &told[index]) {
            return false;
        }
    }
    true
}

/// Whether the same is told of a field of a device so many after another.
fn is_told_alike(count: u32, first: &Told, told: &Told) -> bool
    ensures { result ≡ meaning.is_told_alike count first.now told.now }
{
    match (first, told) {
        (Told::Words(name, text), Told::Words(other, another)) => {
            name == other && text == another
        }
        (Told::Address(first), Told::Address(address)) => follows(*first, count, *address),
        (Told::OtherAddress(old, new), Told::OtherAddress(before, after)) => {
            follows(*old, count, *before) && follows(*new, count, *after)
        }
        _ => false,
    }
}

/// Whether a unit address is so many after another.
fn follows(first: u8, count: u32, address: u8) -> bool
    ensures { result ≡ meaning.follows first count address }
{
    u64::from(address) == u64::from(first) + u64::from(count)
}
