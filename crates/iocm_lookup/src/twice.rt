ghost use Rattle.std.specs.Prelude.{◌≡◌, not, IfOk};
ghost use Rattle.iocm_model.specs.Rules.EachRule.{has_twice};
ghost use Rattle.iocm_lookup.specs.Rising as rising;

use std::alloc::{AllocError, Allocator};

/// Whether a number is in a list twice. Where each is greater than the one before, as is the rule,
/// one walk over them tells. Else they are sorted first.
///
/// `AllocError` (M1): memory ran out.
pub fn is_any_twice<A: Allocator>(mut numbers: Vec<u64, A>) -> Result<bool, AllocError>
    ensures { IfOk result (λ twice. twice ≡ has_twice numbers.items) }
{
    if do_rise(numbers.as_slice()) {
        return Ok(false);
    }
    numbers.sort()?;
    Ok(!do_rise(numbers.as_slice()))
}

/// Whether each of these numbers is greater than the one before.
fn do_rise(numbers: &[u64]) -> bool
    ensures { result ≡ rising.do_rise numbers.now }
{
    match numbers {
        [first, rest @ ..] => do_rise_above(*first, rest),
        [] => true,
    }
}

/// Whether the first of these numbers is greater than another, and each further one greater than
/// the one before.
#[tactic(auto, using(crate::proofs::Twins::rising_steps))]
fn do_rise_above(first: u64, numbers: &[u64]) -> bool
    ensures { result ≡ rising.do_rise_above first numbers.now }
{
    let mut last = first;
    for number in numbers {
        if *number <= last {
            return false;
        }
        last = *number;
    }
    true
}
