//! What holds of the definitions themselves. Each law is the contract of a function that does
//! nothing.
ghost use Rattle.iocm_explain.specs.Examples.{AsWorked};
ghost use Rattle.iocm_explain.specs.Named.{AreNamedByNumber};

/// Each refusal is found by its number, in capitals or small letters, and by no other word. Each is
/// listed once.
pub fn refusals_are_named_by_number()
    ensures { AreNamedByNumber }
{}

/// A title, an entry, a heading and what is printed of words are as they are stated by hand.
pub fn entries_are_as_worked()
    ensures { AsWorked }
{}
