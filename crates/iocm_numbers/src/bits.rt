ghost use Rattle.std.specs.Prelude.{◌≡◌, ◌≢◌, ◌<◌, ◌≤◌, ◌+◌, ◌*◌, true, false, length};
ghost use Rattle.std.specs.Prelude.{ℕ, IfSome, IfOk, IsNone, replicate};
ghost use Rattle.iocm_numbers.specs.Bits.{is_bit_set, IsLowestClear, AreAllSet};

use std::alloc::{AllocError, Allocator};

/// This many words with no bit set.
pub fn clear_words<A: Allocator>(alloc: A, count: usize) -> Result<Vec<u64, A>, AllocError>
    ensures { IfOk result (λ words. words.items ≡ replicate count 0) }
{
    vec![in alloc; 0u64; count]
}

/// Sets a bit.
pub fn set_bit(words: &mut [u64], bit: usize)
    requires { bit < 64 * length words.old }
    ensures here { is_bit_set words.new bit ≡ true }
    ensures others { (other : ℕ) → other ≢ bit → is_bit_set words.new other ≡ is_bit_set words.old other }
    ensures len { length words.new ≡ length words.old }
{
    words[bit / 64] |= 1u64 << (bit % 64);
}

/// Clears a bit.
pub fn clear_bit(words: &mut [u64], bit: usize)
    requires { bit < 64 * length words.old }
    ensures here { is_bit_set words.new bit ≡ false }
    ensures others { (other : ℕ) → other ≢ bit → is_bit_set words.new other ≡ is_bit_set words.old other }
    ensures len { length words.new ≡ length words.old }
{
    words[bit / 64] &= !(1u64 << (bit % 64));
}

/// The lowest bit that isn't set of the 65,536 from a word on.
pub fn lowest_clear(words: &[u64], first: usize) -> Option<u16>
    requires { first + 1024 ≤ length words.now }
    ensures some { IfSome result (λ number. IsLowestClear words.now (64 * first) number) }
    ensures small { IfSome result (λ number. number < 65536) }
    ensures none { IsNone result → AreAllSet words.now (64 * first) 65536 }
{
    for place in 0..1024u16 {
        let word = words[first + usize::from(place)];
        if word != u64::MAX {
            return Some(place * 64 + word.trailing_ones() as u16);
        }
    }
    None
}
