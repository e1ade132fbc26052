ghost use Rattle.std.specs.Prelude.{◌≡◌};
ghost use Rattle.std.specs.Option.{option_copied};
ghost use Rattle.iocm_model.specs.Machine.Sight as model;

use iocm_types::{List, Name};
use std::alloc::Allocator;

/// Whether no candidates are listed, or the name is among them.
pub fn is_candidate<A: Allocator>(candidates: Option<&List<Name, A>>, name: Name) -> bool
    ensures { result ≡ model.is_candidate name (option_copied candidates.entry) }
{
    match candidates {
        Some(names) => has_name(names.as_slice(), name),
        None => true,
    }
}

/// Whether a list has a name.
fn has_name(names: &[Name], name: Name) -> bool
    ensures { result ≡ model.has_name name names.now }
{
    names.iter().any(|other| name == *other)
}
