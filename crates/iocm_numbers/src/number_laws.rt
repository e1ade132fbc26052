//! What holds of the definitions of what is looked at and what changed. Each law is the contract of
//! a function that does nothing.
ghost use Rattle.iocm_numbers.specs.LookedAt.{CellsAreListed};

/// The number cell of a place that has a number is among those of any places of which it is one.
pub fn numbers_at_places_are_listed()
    ensures { CellsAreListed }
{}
