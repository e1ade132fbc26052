ghost use Rattle.std.specs.Prelude.{◌≡◌};
ghost use Rattle.iocm_statements.specs.Unread.{fault_of, or_malformed};

use iocm_types::{Fault, Rule};
use std::alloc::{AllocError, AllocFailed};

/// Why a text was not read.
#[derive(Clone, Copy, PartialEq, Eq)]
pub enum Unread {
    /// Memory was wanted.
    Memory,
    /// The text has none of the forms that it may have.
    Malformed,
}

impl Unread {
    /// The fault: `malformed` where the text has no such form, else M1, which stands at no line.
    pub fn fault(self, malformed: Fault) -> Fault
        ensures { result ≡ fault_of malformed self }
    {
        match self {
            Unread::Memory => Fault {
                rule: Rule::M1,
                line: 0,
            },
            Unread::Malformed => malformed,
        }
    }
}

/// What was read, or the fault: `malformed` where the text has none of its forms, else M1.
pub fn or_malformed<T>(read: Result<T, Unread>, malformed: Fault) -> Result<T, Fault>
    ensures { result ≡ or_malformed malformed read }
{
    match read {
        Ok(found) => Ok(found),
        Err(unread) => Err(unread.fault(malformed)),
    }
}

impl From<AllocError> for Unread {
    ghost use Rattle.std.specs.Prelude.{◌≡◌};
    ghost use Rattle.iocm_statements.specs.declared.unread.Unread.TheVariants.{Memory};

    ghost from_gives = { λ _ e. e ≡ Memory };

    fn from(_error: AllocError) -> Unread {
        Unread::Memory
    }
}

/// Want of memory for a value, which is dropped.
impl<T: Drop> From<AllocFailed<T>> for Unread {
    ghost use Rattle.std.specs.Prelude.{◌≡◌};
    ghost use Rattle.iocm_statements.specs.declared.unread.Unread.TheVariants.{Memory};

    ghost from_gives = { λ _ e. e ≡ Memory };

    fn from(_error: AllocFailed<T>) -> Unread {
        Unread::Memory
    }
}
