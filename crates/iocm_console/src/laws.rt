//! What holds of the definitions themselves. Each law is the contract of a function that does
//! nothing.
ghost use Rattle.iocm_console.specs.Examples.{RefusalsAsWorked, TablesAsWorked};

/// Refusals are printed as they are stated by hand: about a line, a key, a subchannel, a change,
/// and nothing.
pub fn refusals_are_as_worked()
    ensures { RefusalsAsWorked }
{}

/// The rows of a table are printed as they are stated by hand: as text under its heading, and as lines
/// of JSON.
pub fn tables_are_as_worked()
    ensures { TablesAsWorked }
{}
