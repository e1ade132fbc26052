//! What holds of the definitions themselves. Each law is the contract of a function that does nothing.
ghost use Rattle.iocm_impact_text.specs.Examples.{BlocksAreToldAsWorked, RowsAreToldAsWorked, TotalsAreToldAsWorked};

/// Rows, blocks and totals are printed as they are worked by hand.
pub fn texts_are_as_worked()
    ensures rows { RowsAreToldAsWorked }
    ensures blocks { BlocksAreToldAsWorked }
    ensures totals { TotalsAreToldAsWorked }
{}
