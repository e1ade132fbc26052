use crate::Rule;
use std::alloc::{AllocError, AllocFailed};

/// Why a text was refused: the number of the refusal, and the line where the fault stands.
///
/// Lines count from 1, comments and blank lines too. Want of memory (M1) and a device's fault (L5,
/// L6) stand at no line, and have line 0.
#[derive(Clone, Copy, Debug, PartialEq, Eq)]
pub struct Fault {
    /// The number of the refusal.
    pub rule: Rule,
    /// The line where the fault stands, counted from 1, or 0 for none.
    pub line: usize,
}

/// Want of memory is M1, at no line.
impl From<AllocError> for Fault {
    ghost use Rattle.std.specs.Prelude.{◌≡◌};
    ghost use Rattle.iocm_types.specs.Fault.{memory};

    ghost from_gives = { λ _ e. e ≡ memory };

    fn from(_error: AllocError) -> Fault {
        Fault {
            rule: Rule::M1,
            line: 0,
        }
    }
}

/// Want of memory for a value is M1, at no line; the value is dropped.
impl<T: Drop> From<AllocFailed<T>> for Fault {
    ghost use Rattle.std.specs.Prelude.{◌≡◌};
    ghost use Rattle.iocm_types.specs.Fault.{memory};

    ghost from_gives = { λ _ e. e ≡ memory };

    fn from(_error: AllocFailed<T>) -> Fault {
        Fault {
            rule: Rule::M1,
            line: 0,
        }
    }
}
