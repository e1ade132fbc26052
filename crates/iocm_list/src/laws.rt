//! What holds of the definitions themselves. Each law is the contract of a function that does
//! nothing.
ghost use Rattle.iocm_list.specs.AskedWords.{CellsAreAskedFor};
ghost use Rattle.iocm_list.specs.Again.{PathTableIsReadAgain, UnitTableIsReadAgain};
ghost use Rattle.iocm_list.specs.Laws.{AllPathsAreListed, AllUnitsAreListed, RangesAreApart, RangesAreTheDevices};
ghost use Rattle.iocm_list.specs.Examples.{RowsAreLeft, RowsAreListed, some_configuration};

/// In a small configuration filters leave the rows, and the rows and the tables of them are, as they are
/// worked by hand.
#[tactic(auto, using(crate::proofs::WorkedTables::rows_left, crate::proofs::WorkedTables::rows_listed))]
pub fn rows_are_listed_as_worked()
    ensures left { RowsAreLeft some_configuration }
    ensures listed { RowsAreListed some_configuration }
{}

/// The words of the lines of a table are its headings and the cells of its rows. So each line has as
/// many words as the heading.
#[tactic(auto, using(crate::proofs::WordedRows::path_table_again, crate::proofs::WordedRows::unit_table_again))]
pub fn tables_are_read_again()
    ensures paths { PathTableIsReadAgain }
    ensures units { UnitTableIsReadAgain }
{}

/// The ranges of devices are those of just these devices, in their order, and as few as can be.
#[tactic(auto, using(crate::proofs::RangesOfDevices::ranges))]
pub fn ranges_are_the_devices()
    ensures devices { RangesAreTheDevices }
    ensures apart { RangesAreApart }
{}

/// Where nothing is asked for but how many paths are online, which is asked of devices alone, each channel
/// path and each control unit has a row.
#[tactic(auto, using(crate::proofs::RangesOfDevices::all_listed))]
pub fn nothing_asked_for_lists_all()
    ensures paths { AllPathsAreListed }
    ensures units { AllUnitsAreListed }
{}

/// The word of a path, of a control unit or of devices is read by `--path`, `--unit` or `--device`
/// as what it tells.
///
/// Promise: what a list tells of a path, a control unit or devices can be asked for as it stands.
#[tactic(auto, using(crate::proofs::AskedWords::cells_are_asked_for))]
pub fn cells_are_asked_for()
    ensures { CellsAreAskedFor }
{}
