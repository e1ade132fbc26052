ghost use Rattle.std.specs.Prelude.{◌≡◌};
ghost use Rattle.std.specs.Str.{bytes_eq};

/// Whether two words are one. It compares byte by byte: words are short, and most differ in the
/// first.
#[tactic(auto, using(crate::proofs::Same::same_steps))]
pub fn is_same_word(one: &[u8], other: &[u8]) -> bool
    ensures { result ≡ bytes_eq one.now other.now }
{
    if one.len() != other.len() {
        return false;
    }
    for at in 0..one.len() {
        if one[at] != other[at] {
            return false;
        }
    }
    true
}
