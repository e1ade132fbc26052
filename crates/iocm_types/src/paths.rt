ghost use Rattle.std.specs.Prelude.{◌≡◌, ◌<◌, ◌≤◌, ◌↔◌, [], ◌∷◌, ◌++◌, length, IsTrue};

use crate::Chpid;
use std::marker::Model;

/// The most paths that a view has: the masks have eight bits.
pub const MOST_PATHS: usize = 8;

/// A list of at most eight channel paths, in the order of the masks' bits. It takes no memory, and
/// is copied as it is. Contracts see the list of the paths' numbers.
#[derive(Clone, Copy)]
pub struct Paths {
    /// The paths, and 00 behind them.
    list: [Chpid; MOST_PATHS],
    /// How many paths there are.
    len: u8,
}

impl Model for Paths {
    ghost use Rattle.std.specs.Prelude.{List, ℕ, ◌≡◌, ◌≤◌, ◌-◌, ◌++◌, length, take, drop};
    ghost use Rattle.std.proofs.Common.{arith, sym, ap, ◌∙◌, take-append-drop, length-take-le};
    ghost use Rattle.std.proofs.Math.ListN.{replicate};

    ghost Value = { List ℕ };

    ghost view = { λ p. take p.len p.list };

    ghost invariant = { λ p. (p.len ≤ 8) × (length p.list ≡ 8) × (drop p.len p.list ≡ replicate (8 - p.len) 0) };

    ghost inverse = { λ n. record { list = n ++ replicate (8 - length n) 0; len = length n } };

    ghost inverse_ok = { λ p h i. record {
      list = (ap (λ n. take p.len p.list ++ replicate (8 - n) 0) (length-take-le p.len p.list (omega (arith, h.0, h.1)))
          ∙ ap (λ rest. take p.len p.list ++ rest) (sym h.2) ∙ take-append-drop p.len p.list) i;
      len = length-take-le p.len p.list (omega (arith, h.0, h.1)) i;
    } };
}

impl Paths {
    /// No path.
    pub fn new() -> Self
        ensures { result ≡ [] }
    {
        Paths {
            list: [Chpid::new(0); MOST_PATHS],
            len: 0,
        }
    }

    /// The paths in the order of the masks' bits, at most eight.
    pub fn as_slice(&self) -> &[Chpid]
        ensures list { result.now ≡ self.now }
        ensures most { length self.now ≤ 8 }
    {
        &self.list[..usize::from(self.len)]
    }

    /// Whether there are eight paths, so that no further one may be put in.
    pub fn is_full(&self) -> bool
        ensures full { IsTrue result ↔ (length self.now ≡ 8) }
        ensures most { length self.now ≤ 8 }
    {
        usize::from(self.len) == MOST_PATHS
    }

    /// Puts a path at the end of a list that is not full.
    pub fn push(&mut self, path: Chpid)
        requires { length self.old < 8 }
        ensures { self.new ≡ self.old ++ path ∷ [] }
    {
        self.list[usize::from(self.len)] = path;
        self.len += 1;
    }
}

impl PartialEq for Paths {
    ghost use Rattle.std.specs.Prelude.{nat_eq};
    ghost use Rattle.std.specs.Cmp.Lexicographic.{pointwise};
    ghost use Rattle.std.specs.Cmp.Rules.{comparing};
    ghost use Rattle.std.proofs.Common.{rules};

    ghost eq = { pointwise nat_eq };

    ghost laws = { Prim.search (comparing, rules) };

    fn eq(&self, other: &Self) -> bool {
        self.as_slice() == other.as_slice()
    }
}

impl Eq for Paths {
    ghost use Rattle.std.specs.Cmp.Rules.{comparing};
    ghost use Rattle.std.proofs.Common.{rules};

    ghost laws = { Prim.search (comparing, rules) };
}
